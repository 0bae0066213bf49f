// Block records and their whole numbers, both ways (document 02, Points 2, 4 and 7): the writer and the reader.
#![tactic(auto)]

ghost use Rattle.std.specs.Prelude.{◌≡◌, ◌*◌, ◌%◌, ◌<◌, ◌≤◌, pos, length, get_or, take};
ghost use Rattle.block.specs.declared.Part.TheVariants.{Vector};
ghost use Rattle.model.specs.Block.{most_streams, most_width, most_bits};
ghost use Rattle.wire.specs.Writing.{put};
ghost use Rattle.block.specs.Reading.{header_size, kinds_of, matrix_runs, most_numbers, part_kinds, kinds_of_vector, vector_size, owned_size};
ghost use Rattle.block.specs.Contents.{header_kinds};
ghost use Rattle.block.specs.Conditions.{called_for};
ghost use Rattle.refusals.specs.declared.Kind.TheVariants.{StreamCount};
ghost use Rattle.refusals.specs.Filling.{Fills, call, filling, fitted};
ghost use Rattle.records.specs.Writing.{checked, plain_of, record_of, writing_in, writing, reading};
ghost use Rattle.records.specs.Steps.{kind_at, Asked, FirstAllowed, Called, Sized, number_count, as_read, WriteAsked};

use block::Layout;
use refusals::{Kind, Refusal};
use wire::Writer;

// A list of whole numbers, and the layout of the record that they are taken for.
#[derive(Clone, Copy)]
struct NumberList<'a> {
    layout: Layout,
    numbers: &'a [i32],
}

impl NumberList<'_> {
    // The kind of the i-th number before the first vector.
    #[tactic(auto, using(crate::proofs::Places::header_laws), unfolding(block::specs::Reading::kinds_of, block::specs::Reading::runs_of))]
    fn header_kind(&self, i: usize) -> Kind
        requires { (i < header_size self.now.layout) × (i < length self.now.numbers.now) }
        ensures { let numbers = self.now.numbers.now in
            result ≡ get_or (header_kinds self.now.layout (get_or numbers 0 (pos 0)) (get_or numbers 3 (pos 0))) i StreamCount }
    {
        match i {
            0 => Kind::StreamCount,
            1 => Kind::SymbolWidth(self.numbers[0]),
            2 => Kind::VectorCount,
            3 => Kind::ClipLevel,
            _ if i < self.layout.share_place() => Kind::WeakLevel(self.numbers[3]),
            _ => Kind::NodeShare(self.numbers[0]),
        }
    }

    // The kind that the list calls for at a place, once the numbers before it are in their ranges. Part of each caller, which has the layout and
    // the first numbers at hand.
    #[inline(always)]
    #[tactic(auto, using(crate::proofs::Places::kind_laws))]
    fn kind_at(&self, i: usize) -> Kind
        requires { Asked self.now.layout self.now.numbers.now i }
        ensures { result ≡ kind_at self.now.layout self.now.numbers.now i }
    {
        let header = self.layout.header_size();
        if i < header {
            return self.header_kind(i);
        }
        let m = block::count_at(self.numbers, 0) as usize;
        let q = block::count_at(self.numbers, 1) as usize;
        owned_kind(self.layout.own_count(), m, q, i - header)
    }

    // How many numbers a record has, by the M, Q and N in front of the list.
    fn number_count(&self) -> usize
        requires { Sized self.now.layout self.now.numbers.now }
        ensures { result ≡ number_count self.now.layout self.now.numbers.now }
    {
        let m = block::count_at(self.numbers, 0) as usize;
        let q = block::count_at(self.numbers, 1) as usize;
        let n = block::count_at(self.numbers, 2) as usize;
        block::vector_start(self.layout, m, q, n)
    }

    // How many numbers the list calls for, as far as its first i tell, all of which are in their ranges.
    #[tactic(auto, using(crate::proofs::Places::sized, crate::proofs::Places::called_within, crate::proofs::Places::called_behind))]
    fn called(&self, i: usize) -> usize
        requires { (i ≤ length self.now.numbers.now) × FirstAllowed self.now.layout self.now.numbers.now i }
        ensures { Called self.now.layout self.now.numbers.now i result }
    {
        let header = self.layout.header_size();
        if i < header {
            return header;
        }
        self.number_count()
    }

    // Where the record of the list ends, or why the list is turned back.
    fn check(&self) -> Result<usize, Refusal>
        ensures { let kinds = called_for self.now.layout self.now.numbers.now in
            result ≡ as_read (length (record_of self.now.layout self.now.numbers.now)) (checked kinds self.now.numbers.now) }
    {
        let mut size = 4;
        for (i, &z) in self.numbers.iter().enumerate() {
            if self.called(i) <= i {
                return Err(Refusal::Trailing);
            }
            let kind = self.kind_at(i);
            if !refusals::allowed(kind, z) {
                return Err(refusals::refusal_of(kind, z));
            }
            size += wire::group_count(plain(kind, z));
        }
        if self.numbers.len() < self.called(self.numbers.len()) {
            return Err(Refusal::Ends);
        }
        Ok(size)
    }

    // The list written in its layout: how many bytes, or why the buffer is untouched.
    fn write_in(&self, record: &mut [u8]) -> Result<usize, Refusal>
        ensures { let filling = writing_in self.now.layout self.now.numbers.now (length «record».old) in
            Fills filling «record».old result «record».new }
    {
        let size = self.check()?;
        if record.len() < size {
            return Err(Refusal::Buffer);
        }
        write_all(self.layout, self.numbers, record);
        Ok(size)
    }

    // The numbers of the record that the list holds, handed over if they fit.
    fn hand_over(&self, numbers: &mut [i32]) -> Result<usize, Refusal>
        requires { Sized self.now.layout self.now.numbers.now × (length self.now.numbers.now ≡ most_numbers) }
        ensures { let own = take (number_count self.now.layout self.now.numbers.now) self.now.numbers.now in
            Fills (fitted (length numbers.old) own) numbers.old result numbers.new }
    {
        let count = self.number_count();
        if numbers.len() < count {
            return Err(Refusal::Buffer);
        }
        numbers[..count].copy_from_slice(&self.numbers[..count]);
        Ok(count)
    }
}

// The kind of number j of an m by m matrix R. A row with this many columns right of its diagonal has the diagonal and two parts of each of
// them; the rows before j's own are passed over.
fn matrix_kind(m: usize, j: usize) -> Kind
    requires { (m ≤ most_streams) × (j < m * m) }
    ensures { result ≡ get_or (kinds_of (matrix_runs m)) j StreamCount }
{
    let mut place = j;
    for right in (0..m).rev() {
        if place == 0 {
            return Kind::DiagonalEntry;
        }
        if place <= 2 * right {
            return Kind::RightPart;
        }
        place -= 1 + 2 * right;
    }
    unreachable!()
}

// The kind of number j of a vector, behind its owner's.
#[tactic(auto, using(block::proofs::CalledFor::kind_in_matrix, block::proofs::CalledFor::kind_received, block::proofs::CalledFor::kind_prior))]
fn vector_kind(m: usize, q: usize, j: usize) -> Kind
    requires { (m ≤ most_streams) × (q ≤ most_width) × (j < vector_size m q) }
    ensures { result ≡ get_or (kinds_of_vector m q) j StreamCount }
{
    if j < m * m {
        return matrix_kind(m, j);
    }
    if j < m * m + 2 * m {
        return Kind::ReceivedPart;
    }
    Kind::BitPrior
}

// The kind of number i of the vectors, each with so many owner numbers before it. All of them have the same.
#[tactic(auto, using(block::proofs::CalledFor::kind_owner, block::proofs::CalledFor::kind_behind_owner))]
fn owned_kind(own: usize, m: usize, q: usize, i: usize) -> Kind
    requires { (own ≤ 1) × (1 ≤ m) × (m ≤ most_streams) × (q ≤ most_width) × (m * q ≤ most_bits) }
    ensures { result ≡ get_or (part_kinds (Vector own m q)) (i % owned_size own m q) StreamCount }
{
    let j = i % (own + block::vector_size(m, q));
    if j < own {
        return Kind::OwnerNumber;
    }
    vector_kind(m, q, j - own)
}

// The plain number that a whole number is written as: folded where its kind is.
fn plain(kind: Kind, z: i32) -> u32
    ensures { result ≡ plain_of kind z }
{
    if refusals::is_folded(kind) {
        wire::fold(z)
    } else {
        z.unsigned_abs()
    }
}

// The record of a list that passed its check, put into the buffer.
fn write_all(layout: Layout, numbers: &[i32], record: &mut [u8])
    requires { WriteAsked layout numbers.now (length «record».old) }
    ensures { «record».new ≡ put «record».old 0 (record_of layout numbers.now) }
{
    let list = NumberList { layout, numbers };
    let mut writer = Writer::new(record);
    writer.opening(layout.opening());
    for i in 0..numbers.len() {
        writer.number(plain(list.kind_at(i), numbers[i]));
    }
}

// A list's whole numbers, and the opening told by its number, written into the buffer.
#[tactic(auto, unfolding(crate::specs::Writing::writing))]
fn write(opening: u32, numbers: &[i32], record: &mut [u8]) -> Result<usize, Refusal>
    ensures { Fills (writing opening numbers.now (length «record».old)) «record».old result «record».new }
{
    let layout = Layout::try_from(opening)?;
    NumberList { layout, numbers }.write_in(record)
}

// A record's whole numbers, read into the lent list.
fn read(record: &[u8], numbers: &mut [i32]) -> Result<usize, Refusal>
    ensures { Fills (reading «record».now (length numbers.old)) numbers.old result numbers.new }
{
    let mut list = [0; block::MOST_NUMBERS];
    reader::read_whole(record, &mut list)?;
    let layout = reader::layout_of(record);
    NumberList {
        layout,
        numbers: &list,
    }
    .hand_over(numbers)
}

// A list's whole numbers in, and the opening told by its number; record bytes out: how many, or minus the refusal number over an untouched
// buffer.
#[tactic(auto, using(refusals::proofs::Outcomes::fills_call, refusals::proofs::Outcomes::fills_few))]
pub fn geckoneedle_write(opening: u32, numbers: &[i32], record: &mut [u8]) -> i64
    ensures { call result «record».new
        ≡ filling (writing opening numbers.now (length «record».old)) «record».old }
{
    refusals::returned(write(opening, numbers, record))
}

// A record's bytes in, its whole numbers out: how many, or minus the refusal number over an untouched list.
#[tactic(auto, using(refusals::proofs::Outcomes::fills_call, refusals::proofs::Outcomes::fills_few))]
pub fn geckoneedle_read(record: &[u8], numbers: &mut [i32]) -> i64
    ensures { call result numbers.new
        ≡ filling (reading «record».now (length numbers.old)) numbers.old }
{
    refusals::returned(read(record, numbers))
}
