// The detector: one block record in, one reply out.
#![tactic(auto)]

ghost use Rattle.std.specs.Prelude.{◌≡◌, ◌≤◌, length};
ghost use Rattle.wire.specs.Writing.{Wrote};
ghost use Rattle.wire.specs.Writer.{Writes};
ghost use Rattle.model.specs.Metric.{all_priors};
ghost use Rattle.model.specs.Block.{vector_of};
ghost use Rattle.block.specs.Reading.{most_numbers};
ghost use Rattle.block.specs.Contents.{owner_at, vector_rows, block_of};
ghost use Rattle.owners.specs.Spares.{Spares};
ghost use Rattle.search.specs.Values.{Answered};
ghost use Rattle.replies.specs.Reply.{answer_numbers, written, reply_of};
ghost use Rattle.refusals.specs.Filling.{returned, buffer_after, Fills};
ghost use Rattle.detector.specs.Outcome.{outcome, by_room};
ghost use Rattle.search.specs.Holds.{Holds};
ghost use Rattle.detector.specs.Steps.{Heads, OwnerAsked, ListAsked, SearchOneAsked, ReplyAsked, CanWrite};
ghost use Rattle.detector.specs.Handed.{Handed, handed, all_handed, Ready, Taken};

use block::Layout;
use constellation::PLACES;
use metric::LABEL_BITS;
use refusals::Refusal;
use search::Found;
use tree::Task;
use wire::Writer;

// What each owner has to spare stands in an array, in the place of its number, which is 1 to 4.
pub const SPARES: usize = 5;

// A record's M, Q, N, C, W and D, and its layout.
#[derive(Clone, Copy)]
pub struct Header {
    pub layout: Layout,
    pub streams: usize,
    pub width: usize,
    pub vectors: usize,
    pub clip: u32,
    pub weak: u32,
    pub share: u32,
}

// The header of the lent list, which has a layout.
pub fn header_of(layout: Layout, numbers: &[i32]) -> Header
    requires { length numbers.now ≡ most_numbers }
    ensures { (result.layout ≡ layout) × Heads result numbers.now }
{
    Header {
        layout,
        streams: block::count_at(numbers, 0) as usize,
        width: block::count_at(numbers, 1) as usize,
        vectors: block::count_at(numbers, 2) as usize,
        clip: block::count_at(numbers, 3),
        weak: block::count_at(numbers, layout.weak_place()),
        share: block::count_at(numbers, layout.share_place()),
    }
}

// The owner of vector k, from 0. A record without owners has one for all vectors, owner 1.
pub fn owner_of(numbers: &[i32], h: Header, k: usize) -> usize
    requires { OwnerAsked h numbers.now k }
    ensures { result ≡ owner_at h.layout numbers.now k }
{
    let layout = h.layout;
    if layout.own_count() == 0 {
        return 1;
    }
    let place = block::vector_start(layout, h.streams, h.width, k);
    block::count_at(numbers, place) as usize
}

// The nodes that each owner may walk beyond M for each of its vectors: D - M for every one of them.
pub fn set_aside(numbers: &[i32], h: Header) -> [u32; SPARES]
    requires { ListAsked h numbers.now }
    ensures { Spares (block_of h.layout numbers.now) result (λ o. 0)
        (block_of h.layout numbers.now).owners (block_of h.layout numbers.now).vectors }
{
    let more = h.share - h.streams as u32;
    let mut spare = [0u32; SPARES];
    for k in 0..h.vectors {
        let owner = owner_of(numbers, h, k);
        spare[owner] += more;
    }
    spare
}

// Vector k, from 0, is searched under an allowance: what the reply says of it, its soft values at the front of `soft`, and its label's squared
// distance. The call `geckoneedle_detect` makes bytes of this, the listing text.
pub fn search_one(
    numbers: &[i32],
    h: Header,
    k: usize,
    allowed: u32,
    points: &[i8; PLACES],
    keys: &mut [u64],
    soft: &mut [i32; LABEL_BITS],
) -> Found
    requires { SearchOneAsked h numbers.now k points.now (length keys.old) (length soft.old) × (h.streams ≤ allowed) }
    ensures { Answered (vector_of (block_of h.layout numbers.now) (vector_rows h.layout numbers.now k))
        (block_of h.layout numbers.now).weak allowed result.stopped result.count result.label result.distance
        soft.old soft.new }
{
    let layout = h.layout;
    let size = block::vector_size(h.streams, h.width);
    let start = block::vector_start(layout, h.streams, h.width, k);
    let from = start + layout.own_count();
    let to = from + size;
    let task = Task {
        streams: h.streams,
        width: h.width,
        clip: h.clip,
        allowance: allowed,
    };
    search::search_vector(task, h.weak, points, &numbers[from..to], keys, soft)
}

// The priors of vector k, from 0: the last of its numbers, which end where the next vector would begin.
fn priors_of(numbers: &[i32], h: Header, k: usize) -> &[i32]
    requires { OwnerAsked h numbers.now k }
    ensures { result.now ≡ all_priors (vector_rows h.layout numbers.now k) }
{
    let end = block::vector_start(h.layout, h.streams, h.width, k + 1);
    &numbers[end - h.streams * h.width..end]
}

// What is done with the vectors' answers.
pub trait Sink {
    // What is handed on can be taken
    ghost can_take: { Self → Handed → Type 0 };

    // and what taking it leaves.
    ghost takes: { Self → Handed → Self → Type 0 };

    // Takes what was found of vector k, from 0, its soft values and its priors.
    fn take(&mut self, k: usize, found: Found, soft: &[i32], priors: &[i32])
        requires { can_take self.old (handed k found soft.now priors.now) }
        ensures { takes self.old (handed k found soft.now priors.now) self.new };
}

// Every vector is searched, in record order, and its answer is handed on. An owner's vector may walk what the owner has to spare, and M nodes
// more; what it leaves of both is to spare for the owner's next one.
pub fn for_each_answer<S: Sink>(numbers: &[i32], h: Header, sink: &mut S)
    requires asked { ListAsked h numbers.now }
    requires ready { Ready S.can_take S.takes sink.old (all_handed (block_of h.layout numbers.now)) }
    ensures { Taken S.takes sink.old (all_handed (block_of h.layout numbers.now)) sink.new }
{
    let mut points = [0i8; PLACES];
    constellation::fill(h.width, &mut points);
    // Room for every search to work in, cleared once a record.
    let mut keys = [0u64; search::KEYS];
    let mut soft = [0i32; LABEL_BITS];
    let mut spare = set_aside(numbers, h);
    let m = h.streams as u32;
    let bits = h.streams * h.width;
    for k in 0..h.vectors {
        let owner = owner_of(numbers, h, k);
        let allowed = spare[owner] + m;
        let found = search_one(numbers, h, k, allowed, &points, &mut keys, &mut soft);
        spare[owner] = allowed - found.count;
        sink.take(k, found, &soft[..bits], priors_of(numbers, h, k));
    }
}

// A reply takes an answer by writing it.
impl Sink for Writer<'_> {
    ghost can_take = { λ w x. CanWrite w x.answer };

    ghost takes = { λ w x v. Writes w (written (answer_numbers x.answer)) v };

    fn take(&mut self, _k: usize, found: Found, soft: &[i32], _priors: &[i32]) {
        replies::write_found(self, found.stopped, found.count, found.label);
        replies::write_soft(self, soft);
    }
}

// The whole reply, vector by vector in record order; its length.
fn answer_all(numbers: &[i32], h: Header, reply: &mut [u8]) -> usize
    requires { ReplyAsked h numbers.now (length reply.old) }
    ensures { Wrote reply.old 0 (reply_of (block_of h.layout numbers.now)) reply.new result }
{
    let mut writer = Writer::new(reply);
    replies::write_head(&mut writer, h.streams, h.width, h.vectors);
    for_each_answer(numbers, h, &mut writer);
    writer.at
}

// The reply to the record that the lent list holds, if the buffer has room for any reply of its size; its length.
fn reply_to(layout: Layout, numbers: &[i32], reply: &mut [u8]) -> Result<usize, Refusal>
    requires { Holds layout numbers.now }
    ensures { Fills (by_room (length reply.old) (block_of layout numbers.now)) reply.old result reply.new }
{
    let h = header_of(layout, numbers);
    if reply.len() < replies::room(h.streams, h.width, h.vectors) {
        return Err(Refusal::Buffer);
    }
    Ok(answer_all(numbers, h, reply))
}

// One record in, one reply out: the reply's length, or the refusal over an untouched buffer.
fn answer(record: &[u8], reply: &mut [u8]) -> Result<usize, Refusal>
    ensures { Fills (outcome «record».now (length reply.old)) reply.old result reply.new }
{
    let mut numbers = [0; block::MOST_NUMBERS];
    reader::read_whole(record, &mut numbers)?;
    reply_to(reader::layout_of(record), &numbers, reply)
}

// The same, told by a number: the reply's length, or minus the refusal number over an untouched buffer.
#[tactic(auto, using(refusals::proofs::Outcomes::number_counted, refusals::proofs::Outcomes::fills_few))]
pub fn geckoneedle_detect(record: &[u8], reply: &mut [u8]) -> i64
    ensures { (result ≡ returned (outcome «record».now (length reply.old)))
        × (reply.new ≡ buffer_after (outcome «record».now (length reply.old)) reply.old) }
{
    refusals::returned(answer(record, reply))
}
