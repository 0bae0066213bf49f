// The block record: which numbers it has, how many and in which order, by its layout and its own first numbers; and the counts that a reader of
// the numbers asks for.
#![tactic(auto)]

mod order;

ghost use Rattle.std.specs.Prelude.{◌≡◌, ◌+◌, ◌*◌, ◌<◌, ◌≤◌, nat_abs, length};
ghost use Rattle.model.specs.Block.{most_streams, most_vectors, most_width};
ghost use Rattle.block.specs.Reading.{count_at, header_size, opening, own_count, owned_size, share_place, told_by, vector_size, weak_count, weak_place};

use refusals::{Kind, Refusal};

// How many whole numbers a record has at most: 6 and 49 for each of 64 vectors.
pub const MOST_NUMBERS: usize = 3142;

// How many bytes it has at most.
pub const MOST_BYTES: usize = 8275;

// The layouts of a record, which its opening tells: document 01's; document 02's, in which W follows C; and the one in which, besides, an owner's
// number stands before each vector.
#[derive(Clone, Copy, Debug, PartialEq, Eq)]
pub enum Layout {
    Base,
    Weakened,
    Owned,
}

// Numbers of one kind side by side.
#[derive(Clone, Copy)]
pub struct Run {
    pub kind: Kind,
    pub count: usize,
}

// The parts of a record: M; Q, N and C, with M; so many numbers W, and D, with M and C; so many owner numbers, and a vector, with M and Q.
#[derive(Clone, Copy)]
pub enum Part {
    First,
    Sizes(i32),
    Limits(usize, i32, i32),
    Vector(usize, usize, usize),
}

impl Layout {
    // The four bytes that a record of this layout opens with.
    pub fn opening(self) -> [u8; 4]
        ensures { result ≡ opening self }
    {
        match self {
            Layout::Base => [0x43, 0x42, 0x52, 0x31],
            Layout::Weakened => [0x43, 0x42, 0x52, 0x32],
            Layout::Owned => [0x43, 0x42, 0x52, 0x33],
        }
    }

    // How many numbers W it has.
    pub fn weak_count(self) -> usize
        ensures { result ≡ weak_count self }
    {
        match self {
            Layout::Base => 0,
            Layout::Weakened => 1,
            Layout::Owned => 1,
        }
    }

    // How many owner numbers stand before each of its vectors.
    pub fn own_count(self) -> usize
        ensures { result ≡ own_count self }
    {
        match self {
            Layout::Base => 0,
            Layout::Weakened => 0,
            Layout::Owned => 1,
        }
    }

    // The place of W among its numbers: that of C, where there is no other.
    pub fn weak_place(self) -> usize
        ensures { result ≡ weak_place self }
    {
        3 + self.weak_count()
    }

    // The place of D.
    pub fn share_place(self) -> usize
        ensures { result ≡ share_place self }
    {
        4 + self.weak_count()
    }

    // How many numbers stand before the first vector.
    pub fn header_size(self) -> usize
        ensures { result ≡ header_size self }
    {
        5 + self.weak_count()
    }
}

// The layout that a number tells: its opening's last byte less 0x30.
impl TryFrom<u32> for Layout {
    type Error = Refusal;

    ghost try_from_gives = { λ number told. told ≡ told_by number };

    fn try_from(number: u32) -> Result<Layout, Refusal> {
        match number {
            1 => Ok(Layout::Base),
            2 => Ok(Layout::Weakened),
            3 => Ok(Layout::Owned),
            _ => Err(Refusal::Opening),
        }
    }
}

// A count, of a number that is none below 0.
pub fn count_of(z: i32) -> usize
    ensures { result ≡ nat_abs z }
{
    z.unsigned_abs() as usize
}

// The i-th number of a list, which is a count.
pub fn count_at(numbers: &[i32], i: usize) -> u32
    requires { i < length numbers.now }
    ensures { result ≡ count_at i numbers.now }
{
    count_of(numbers[i]) as u32
}

// How many numbers a vector has, without its owner's.
pub fn vector_size(m: usize, q: usize) -> usize
    requires { (m ≤ most_streams) × (q ≤ most_width) }
    ensures { result ≡ vector_size m q }
{
    m * m + 2 * m + m * q
}

// Where vector k of a layout begins, from 0, with its owner's number if there is one. Where N vectors end, vector N would begin.
pub fn vector_start(layout: Layout, m: usize, q: usize, k: usize) -> usize
    requires { (m ≤ most_streams) × (q ≤ most_width) × (k ≤ most_vectors) }
    ensures { result ≡ header_size layout + k * owned_size (own_count layout) m q }
{
    layout.header_size() + k * (layout.own_count() + vector_size(m, q))
}
