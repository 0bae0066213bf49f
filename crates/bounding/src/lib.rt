// Would every child of a node be cut? Decided from what remains of y, before a part of an axis is stored: by the distances alone (`some_child_may_pass`),
// and, where there are priors, by the parts with their costs (`some_child_may_pass_by_parts`).
#![tactic(auto)]

mod by_folds;
mod by_table;

ghost use Rattle.std.specs.Prelude.{◌≡◌, ℕ, Bool, List, ◌+◌, ◌*◌, ◌-◌, ◌/◌, ◌%◌, ◌<◌, ◌≤◌, ◌^◌, length, get_or, take, drop};
ghost use Rattle.model.specs.Block.{most_streams, most_width};
ghost use Rattle.metric.specs.Parts.{axis_width, span};
ghost use Rattle.axes.specs.Tables.{axis_place, table_part};
ghost use Rattle.axes.specs.Tables.Axis.{real, imaginary};
ghost use Rattle.bounding.specs.Cut.{OpensAsked, TableAsked};
ghost use Rattle.bounding.specs.Axes.{axis_priced, priced_by};
ghost use Rattle.bounding.specs.Answers.{opened, some_child_may_pass, some_child_may_pass_by_parts};

use axes::TABLE;
use by_folds::ByFolds;
use by_table::ByTable;
use metric::AXES;
use tree::{Complex, Task};

// How many labels the widest axis has: how far apart the products and the costs of an axis stand in the table, and the entries of a stream's axes.
const SPAN: usize = AXES / 2;

// What the labels of an axis are held against: for each label the widest limit of the bits that are 1 in it, and the best label's part there.
#[derive(Clone, Copy)]
struct Limits<'a> {
    entries: &'a [u64; SPAN],
    own: usize,
}

// An axis at a node: each of its labels adds to the partial metric of the children that have it.
trait Axis: Copy {
    // How many bits a label has, the least that a label adds, and whether a label, with `other` added, is below the widest limit of the bits in
    // which it differs from the best label's part; `low` is what the label that adds the least comes to.
    ghost bits: { Self → ℕ };

    ghost lowest: { Self → ℕ };

    ghost any: { Self → ℕ → ℕ → List ℕ → ℕ → Bool };

    fn width(self) -> usize
        ensures { (result ≡ bits self) × (result ≤ axis_width) };

    fn least(self) -> u64
        ensures { (result ≡ lowest self) × (result < 2 ^ 62) };

    fn any_below(self, other: u64, low: u64, limits: Limits) -> bool
        requires { (other < 2 ^ 63) × (limits.own < 2 ^ bits self) }
        ensures { result ≡ any self other low limits.entry.entries.now limits.entry.own };
}

// May a child of a node pass, by what the labels of its two axes add? Where this is false every child would be cut: its partial metric is not
// below `base`, what is held against all siblings, nor below a limit of its own bits that differ from `own`, the best label's symbol there;
// `entries` are the limits of its stream. No child is below the parent's partial metric with the least of either axis, nor below what a label
// adds with the least of the other axis. The former, `low`, is above none of the latter, and no entry of an axis is wider than that of the label
// whose bits are all 1: where that is not above `low` no label of the axis has to be looked at.
fn some_child_below<A: Axis>(
    re: A,
    im: A,
    partial: u64,
    base: u64,
    entries: &[u64],
    own: usize,
) -> bool
    requires { (partial < 2 ^ 61) × (length entries.now ≡ 2 * span) × (own < 2 ^ (A.bits re + A.bits im)) }
    ensures { let low = partial + (A.lowest re + A.lowest im) in
        result ≡ opened base low
        (get_or entries.now (2 ^ A.bits re - 1) 0) (A.any re (partial + A.lowest im) low (take span entries.now) (own / 2 ^ A.bits im))
        (get_or entries.now (span + (2 ^ A.bits im - 1)) 0)
        (A.any im (partial + A.lowest re) low (take span (drop span entries.now)) (own % 2 ^ A.bits im)) }
{
    let ones_re = (1 << re.width()) - 1;
    let v = im.width();
    let ones_im = (1 << v) - 1;
    let least_re = re.least();
    let least_im = im.least();
    let low = partial + (least_re + least_im);
    let (halves, _) = entries.as_chunks::<SPAN>();
    let first = Limits {
        entries: &halves[0],
        own: own >> v,
    };
    let second = Limits {
        entries: &halves[1],
        own: own & ones_im,
    };
    low < base
        || (low < first.entries[ones_re] && re.any_below(partial + least_im, low, first))
        || (low < second.entries[ones_im] && im.any_below(partial + least_re, low, second))
}

// The question by the distances alone: `left` is what remains of y in the row. Not a method of expansion's `Vector`: that promises a table and
// the constellation's points, too, which are not asked for here.
pub fn some_child_may_pass(
    task: Task,
    row: usize,
    left: Complex,
    partial: u64,
    base: u64,
    numbers: &[i32],
    entries: &[u64],
    own: usize,
) -> bool
    requires { OpensAsked task.streams task.width row left.re left.im partial numbers.now entries.now own }
    ensures { result ≡ some_child_may_pass task.streams task.width row left.re left.im partial base numbers.now
        entries.now own }
{
    let v = task.width / 2;
    let diagonal = metric::element(numbers, row * (2 * task.streams - row)) as u64;
    let re = ByFolds {
        left: left.re,
        diagonal,
        width: task.width - v,
    };
    let im = ByFolds {
        left: left.im,
        diagonal,
        width: v,
    };
    some_child_below(re, im, partial, base, entries, own)
}

// Has the label of an axis of w bits whose bits are all 0, or that whose bits are all 1, a prior cost? Where neither has one no bit of the axis
// has a prior. `entries` are the table from the axis's on.
fn axis_priced(entries: &[i32; AXES], w: usize) -> bool
    requires { w ≤ axis_width }
    ensures { result ≡ axis_priced entries.now 0 w }
{
    entries[SPAN] != 0 || entries[SPAN + ((1 << w) - 1)] != 0
}

// Has a symbol of a row's stream any prior cost? Whether the next question is worth asking is all that depends on it.
pub fn priced(q: usize, row: usize, tables: &[i32; TABLE]) -> bool
    requires { (q ≤ most_width) × (row < most_streams) }
    ensures { result ≡ priced_by q tables.now row }
{
    let (axes, _) = tables.as_chunks::<AXES>();
    axis_priced(&axes[2 * row], q - q / 2) || axis_priced(&axes[2 * row + 1], q / 2)
}

// The question of `some_child_may_pass`, with prior costs and all: where there are priors it lets fewer nodes through. It asks for no vector,
// but for entries of a table that are small enough.
pub fn some_child_may_pass_by_parts(
    q: usize,
    row: usize,
    left: Complex,
    partial: u64,
    base: u64,
    tables: &[i32; TABLE],
    entries: &[u64],
    own: usize,
) -> bool
    requires { TableAsked q row left.re left.im partial tables.now entries.now own }
    ensures { result ≡ some_child_may_pass_by_parts q partial base (table_part tables.now (axis_place row real) left.re)
        (table_part tables.now (axis_place row imaginary) left.im) entries.now own }
{
    let v = q / 2;
    let (axes, _) = tables.as_chunks::<AXES>();
    let re = ByTable {
        entries: &axes[2 * row],
        left: left.re,
        width: q - v,
    };
    let im = ByTable {
        entries: &axes[2 * row + 1],
        left: left.im,
        width: v,
    };
    some_child_below(re, im, partial, base, entries, own)
}
