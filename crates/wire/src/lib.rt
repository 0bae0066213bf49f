// One number of a record, read and written: groups of seven bits, least significant first. Folding, signed numbers as plain ones. And the
// four bytes in front.
#![tactic(auto)]

ghost use Rattle.std.specs.Prelude.{◌≡◌, ◌+◌, ◌<◌, ◌≤◌, ◌^◌, length};
ghost use Rattle.wire.specs.Writing.{bytes_of, put};
ghost use Rattle.wire.specs.Folding.{folded, unfolded};

mod buffer;
mod cursor;

pub use buffer::Writer;
pub use cursor::Cursor;

// Why no number is found at a place: the bytes end too early, or the groups are no number's.
#[derive(Clone, Copy, Debug, PartialEq, Eq)]
pub enum NumberError {
    Short,
    Malformed,
}

// How many groups n has.
pub fn group_count(n: u32) -> usize
    requires { n < 2 ^ 28 }
    ensures { result ≡ length (bytes_of n) }
{
    match n {
        0..=127 => 1,
        128..=16383 => 2,
        16384..=2097151 => 3,
        _ => 4,
    }
}

// x folded. For a negative x, -2x - 1 is 2(-1 - x) + 1, and no part of that leaves its type, whatever x is.
pub fn fold(x: i32) -> u32
    ensures { result ≡ folded x }
{
    if x < 0 {
        2 * ((-1 - x) as u32) + 1
    } else {
        2 * (x as u32)
    }
}

// The number that folds to n: half of an even n, -1 less half of an odd one.
pub fn unfold(n: u32) -> i32
    ensures { result ≡ unfolded n }
{
    let half = (n / 2) as i32;
    if n % 2 == 0 { half } else { -1 - half }
}
