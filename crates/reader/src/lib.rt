// The record reader: every list of bytes is read into its whole numbers, each read and then ranged before the next, or refused by the first check
// that fails: document 01, "The record" and "Where a record is turned back", with document 02's 15 to 17.
#![tactic(auto)]

ghost use Rattle.std.specs.Prelude.{ℕ, Ok, ◌≡◌, [], ◌∷◌, ◌+◌, ◌<◌, ◌≤◌, ◌^◌, length, replicate, take};
ghost use Rattle.wire.specs.Cursor.{with_place, ended};
ghost use Rattle.block.specs.Reading.{opening, whole_of, by_number, one_at, Sure, kinds_of, Small, most_numbers, header_size, numbers_at, runs_of, part_at, starts_with, layout_of, size_stage, limit_stage, vector_stage, stages_at, read_record, read_whole, got, into, StreamsStored, SizesStored};

use block::{Layout, MOST_NUMBERS, Part, count_at, vector_start};
use refusals::{Kind, Refusal, allowed, is_folded, refusal_of};
use wire::Cursor;

// The number whose groups were read: unfolded where its kind is folded.
fn whole(kind: Kind, n: u32) -> i32
    requires { n < 2 ^ 28 }
    ensures { result ≡ whole_of kind n }
{
    if is_folded(kind) {
        wire::unfold(n)
    } else {
        n as i32
    }
}

// A number whose groups were read, ranged.
fn ranged(kind: Kind, n: u32) -> Result<i32, Refusal>
    requires { n < 2 ^ 28 }
    ensures { (next : ℕ) → with_place result next ≡ by_number kind (Ok (n, next)) }
{
    let z = whole(kind, n);
    if allowed(kind, z) {
        return Ok(z);
    }
    Err(refusal_of(kind, z))
}

// A bound for the kinds that come in long runs: a number read that is below it is folded and in range, so that no other test is left. It is
// twice the range, and one more, and 0 for the other kinds.
fn sure_below(kind: Kind) -> u32
    ensures { Sure kind result }
{
    match kind {
        Kind::RightPart => 4095,
        Kind::ReceivedPart => 262143,
        Kind::BitPrior => 2097151,
        _ => 0,
    }
}

// One number, read and then ranged. The bound is its kind's, so that the kind is looked at once for a run.
fn read_one(cursor: &mut Cursor<'_>, kind: Kind, sure: u32) -> Result<i32, Refusal>
    requires { Sure kind sure }
    ensures same_bytes { cursor.new.bytes ≡ cursor.old.bytes }
    ensures found { with_place result cursor.new.at ≡ one_at kind cursor.old.bytes.now cursor.old.at }
{
    let n = cursor.number()?;
    if n < sure {
        return Ok(wire::unfold(n));
    }
    ranged(kind, n)
}

// Numbers of one kind, as many as the lent list has places.
fn read_run(cursor: &mut Cursor<'_>, kind: Kind, numbers: &mut [i32]) -> Result<(), Refusal>
    ensures same_bytes { cursor.new.bytes ≡ cursor.old.bytes }
    ensures found { got (ended result cursor.new.at) numbers.new
        ≡ into 0 (numbers_at (replicate (length numbers.old) kind) cursor.old.bytes.now cursor.old.at) numbers.old }
{
    let sure = sure_below(kind);
    for number in numbers.iter_mut() {
        *number = read_one(cursor, kind, sure)?;
    }
    Ok(())
}

// A part of a record, run by run, into the front of the lent list.
fn read_part(cursor: &mut Cursor<'_>, part: Part, numbers: &mut [i32]) -> Result<(), Refusal>
    requires { Small part × (length (kinds_of (runs_of part)) ≤ length numbers.old) }
    ensures same_bytes { cursor.new.bytes ≡ cursor.old.bytes }
    ensures found { got (ended result cursor.new.at) numbers.new ≡ into 0 (part_at part cursor.old.bytes.now cursor.old.at) numbers.old }
{
    let mut from = 0;
    for i in 0..part.run_count() {
        let run = part.run_at(i);
        let end = from + run.count;
        read_run(cursor, run.kind, &mut numbers[from..end])?;
        from = end;
    }
    Ok(())
}

// N vectors, each behind its owner if the layout has owners, behind W and D.
fn read_vectors(
    cursor: &mut Cursor<'_>,
    layout: Layout,
    numbers: &mut [i32; MOST_NUMBERS],
) -> Result<(), Refusal>
    requires { SizesStored numbers.old }
    ensures { got (ended result cursor.new.at) numbers.new
        ≡ into (header_size layout) (numbers_at (vector_stage layout numbers.old) cursor.old.bytes.now cursor.old.at) numbers.old }
{
    let m = count_at(numbers, 0) as usize;
    let q = count_at(numbers, 1) as usize;
    let n = count_at(numbers, 2) as usize;
    let vector = Part::Vector(layout.own_count(), m, q);
    for k in 0..n {
        let first = vector_start(layout, m, q, k);
        read_part(cursor, vector, &mut numbers[first..])?;
    }
    Ok(())
}

// W, if the layout has it, and D, then N vectors, behind M, Q, N and C, which stand in the list.
fn read_limited(
    cursor: &mut Cursor<'_>,
    layout: Layout,
    numbers: &mut [i32; MOST_NUMBERS],
) -> Result<(), Refusal>
    requires { SizesStored numbers.old }
    ensures { got (ended result cursor.new.at) numbers.new
        ≡ into 4 (stages_at (limit_stage layout ∷ vector_stage layout ∷ []) (take 4 numbers.old) cursor.old.bytes.now cursor.old.at) numbers.old }
{
    let limits = Part::Limits(layout.weak_count(), numbers[0], numbers[3]);
    read_part(cursor, limits, &mut numbers[4..])?;
    read_vectors(cursor, layout, numbers)
}

// Q, N and C, then what they call for, behind M, which stands in the list.
fn read_sized(
    cursor: &mut Cursor<'_>,
    layout: Layout,
    numbers: &mut [i32; MOST_NUMBERS],
) -> Result<(), Refusal>
    requires { StreamsStored numbers.old }
    ensures { got (ended result cursor.new.at) numbers.new
        ≡ into 1 (stages_at (size_stage ∷ limit_stage layout ∷ vector_stage layout ∷ []) (take 1 numbers.old) cursor.old.bytes.now cursor.old.at)
        numbers.old }
{
    let sizes = Part::Sizes(numbers[0]);
    read_part(cursor, sizes, &mut numbers[1..])?;
    read_limited(cursor, layout, numbers)
}

// Does the record begin with the opening of a layout? Bytes too few for it do not, which the two laws say.
#[tactic(auto, using(block::proofs::Openings::starts_short, block::proofs::Openings::four))]
fn has_opening(bytes: &[u8], layout: Layout) -> bool
    ensures { result ≡ starts_with (opening layout) bytes.now }
{
    bytes.starts_with(&layout.opening())
}

// The layout of a record, by its opening. Of bytes that open as no record does it is the base's.
pub fn layout_of(bytes: &[u8]) -> Layout
    ensures { result ≡ layout_of bytes.now }
{
    if has_opening(bytes, Layout::Owned) {
        return Layout::Owned;
    }
    if has_opening(bytes, Layout::Weakened) {
        return Layout::Weakened;
    }
    Layout::Base
}

// A record at the front of the bytes: its whole numbers into the lent list, and where it ended. What was taken before a refusal stays.
pub fn read_record(bytes: &[u8], numbers: &mut [i32; MOST_NUMBERS]) -> Result<usize, Refusal>
    ensures { got result numbers.new ≡ into 0 (read_record bytes.now) numbers.old }
{
    let layout = layout_of(bytes);
    if !has_opening(bytes, layout) {
        return Err(Refusal::Opening);
    }
    // behind the opening
    let mut cursor = Cursor { bytes, at: 4 };
    read_part(&mut cursor, Part::First, numbers)?;
    read_sized(&mut cursor, layout, numbers)?;
    Ok(cursor.at)
}

// The same of bytes that are one record and no more.
pub fn read_whole(bytes: &[u8], numbers: &mut [i32; MOST_NUMBERS]) -> Result<usize, Refusal>
    ensures { got result numbers.new ≡ into 0 (read_whole bytes.now) numbers.old }
{
    let at = read_record(bytes, numbers)?;
    if at < bytes.len() {
        return Err(Refusal::Trailing);
    }
    Ok(at)
}
