// What remains of y in a row: document 01's y_i minus the sum ("The metric"), as far as that is over the streams that a node has chosen.
ghost use Rattle.std.specs.Prelude.{◌≡◌, suc, ◌+◌, ◌*◌, ◌-◌, ◌<◌, ◌^◌, nat_abs, length};
ghost use Rattle.model.specs.Block.{most_width};
ghost use Rattle.model.specs.Constellation.{bits_of, ◌⊗◌};
ghost use Rattle.constellation.specs.Points.{complex_of, point_in, Points};
ghost use Rattle.block.specs.Contents.{complex_at};
ghost use Rattle.metric.specs.Parts.{remainder_bound};
ghost use Rattle.metric.specs.Rows.{row_at, remainder_of, VectorAsked, TermAsked};

use super::{amplitude, element, symbol_at};
use constellation::PLACES;
use tree::Complex;

// An entry of R, or of y, at its place in the numbers.
fn entry(numbers: &[i32], place: usize) -> Complex
    requires { place + 1 < length numbers.now }
    ensures { complex_of result.re result.im ≡ complex_at numbers.now place }
{
    Complex {
        re: element(numbers, place),
        im: element(numbers, place + 1),
    }
}

// The point of a symbol.
fn point(points: &[i8; PLACES], symbol: usize) -> Complex
    requires { symbol < 2 ^ most_width }
    ensures { complex_of result.re result.im ≡ point_in points.now symbol }
{
    Complex {
        re: amplitude(points, 2 * symbol),
        im: amplitude(points, 2 * symbol + 1),
    }
}

// An entry of R times the point of a symbol.
fn term(points: &[i8; PLACES], numbers: &[i32], place: usize, symbol: usize) -> Complex
    requires { TermAsked points.now numbers.now place symbol }
    ensures { complex_of result.re result.im ≡ complex_at numbers.now place ⊗ point_in points.now symbol }
{
    entry(numbers, place) * point(points, symbol)
}

// What remains of y in a row after the entries right of the diagonal, times the points of the node's symbols. Not a method of expansion's
// `Vector`: that promises a table, too, which is not asked for here.
pub fn remainder(
    points: &[i8; PLACES],
    numbers: &[i32],
    m: usize,
    q: usize,
    level: usize,
    node: u32,
) -> Complex
    requires { VectorAsked m q numbers.now × (level < m) × Points q points.now }
    ensures { (complex_of result.re result.im
        ≡ remainder_of q (row_at m q numbers.now level) (bits_of ((m - suc level) * q) node))
        × (nat_abs result.re < remainder_bound) × (nat_abs result.im < remainder_bound) }
{
    let start = level * (2 * m - level) + 1;
    let later = m - (level + 1);
    let mut left = entry(numbers, m * m + 2 * level);
    for t in 0..later {
        let symbol = symbol_at(node, q, (later - t - 1) * q);
        left = left - term(points, numbers, start + 2 * t, symbol);
    }
    left
}
