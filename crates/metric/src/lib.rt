// The partial metrics of a node's children (document 01, "The metric"): what remains of y in a row, the distance to the nearest amplitude of an
// axis, and the one pass that makes the children's keys from what their axis labels add. Here stand the sizes, and what the modules share.
#![tactic(auto)]

mod children;
mod distance;
mod remaining;

ghost use Rattle.std.specs.Prelude.{◌≡◌, ◌/◌, ◌%◌, ◌<◌, ◌≤◌, ◌^◌, pos, nat_abs, ◌-ℤ◌, length, get_or};
ghost use Rattle.model.specs.Block.{most_width, most_bits};
ghost use Rattle.constellation.specs.Points.{places};
ghost use Rattle.metric.specs.Parts.{bit_of, remainder_bound};

pub use children::{fill_children, fill_sums};
use constellation::PLACES;
pub use distance::nearest;
pub use remaining::remainder;

// How many bits a label has at most: four streams of 6 bits, or three of 8.
pub const LABEL_BITS: usize = 24;

// How many labels the widest axis has.
const SPAN: usize = 16;

// The places of the parts of both axes at a node.
pub const AXES: usize = 2 * SPAN;

// Work of a size n, where the sizes A and B, which are asked for most often, are made known to the compiler: it then has a copy of the work
// for each, its loops unrolled. Where one size is enough it is given twice. The work may change what it borrows.
pub fn sized<const A: usize, const B: usize, T, F: FnMut(usize) -> T>(n: usize, work: &mut F) -> T
    requires { F.pre work.old n }
    ensures { F.step work.old n result work.new }
{
    if n == A {
        return work(A);
    }
    if n == B {
        return work(B);
    }
    work(n)
}

// Bit i, counted from the first, of a label of n bits.
#[tactic(auto, unfolding(crate::specs::Parts::bit_of))]
pub fn bit_at(n: usize, label: u32, i: usize) -> bool
    requires { (i < n) × (n ≤ most_bits) }
    ensures { result ≡ bit_of n label i }
{
    (label >> (n - 1 - i)) % 2 == 1
}

// One of the points' parts.
// Not one generic function with `element`: its bound would need a law that the conversion keeps the number, for one index each.
pub fn amplitude(points: &[i8; PLACES], i: usize) -> i64
    requires { i < places }
    ensures { result ≡ get_or points.now i (pos 0) }
{
    i64::from(points[i])
}

// One of a vector's numbers.
pub fn element(numbers: &[i32], i: usize) -> i64
    requires { i < length numbers.now }
    ensures { result ≡ get_or numbers.now i (pos 0) }
{
    i64::from(numbers[i])
}

// The symbol of q bits of a node that has `place` bits after it.
pub fn symbol_at(node: u32, q: usize, place: usize) -> usize
    requires { (q ≤ most_width) × (place < 64) }
    ensures { result ≡ node / 2 ^ place % 2 ^ q }
{
    (node as usize >> place) % (1 << q)
}

// a less b.
pub fn less(a: i64, b: i64) -> i64
    requires { (nat_abs a < remainder_bound) × (nat_abs b < remainder_bound) }
    ensures { result ≡ a -ℤ b }
{
    a - b
}
