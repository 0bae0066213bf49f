// A symbol's two axes: what each axis label adds to the partial metrics of a node's children (document 01, "The metric"), and to their keys.
// What of it depends on the vector alone is made once for the vector, in a lent table; the rest at the node, in a lent array of both axes, and
// shared by a row or a column of the constellation.
#![tactic(auto)]

mod parts;
mod table;

ghost use Rattle.std.specs.Prelude.{ℕ, ◌≡◌, ◌*◌, ◌<◌, ◌≤◌, ◌^◌, length, get_or};
ghost use Rattle.model.specs.Block.{most_width};
ghost use Rattle.metric.specs.Parts.{axis_width, span};
ghost use Rattle.axes.specs.Doubled.{Doubled};

use metric::AXES;
pub use parts::{axis_part, fill_parts};
pub use table::prepare;

// How many labels the widest axis has.
const SPAN: usize = AXES / 2;

// The places of a vector's table: for each axis of each row a span of products and one of prior costs.
pub const TABLE: usize = 16 * SPAN;

// How many labels of w bits there are: on an axis at most a span.
pub fn labels(w: usize) -> usize
    requires { w ≤ most_width }
    ensures value { result ≡ 2 ^ w }
    ensures few { w ≤ axis_width → result ≤ span }
{
    1 << w
}

// Behind the first n entries stand the same ones, each changed by `more`.
pub fn double<T: Copy, F: Fn(T) -> T>(entries: &mut [T], n: usize, more: F)
    requires room { 2 * n ≤ length entries.old }
    requires may { (g : ℕ) (d : T) → g < n → F.pre more (get_or entries.old g d) }
    ensures { Doubled (F.post more) entries.old entries.new n }
{
    for g in 0..n {
        entries[n + g] = more(entries[g]);
    }
}
