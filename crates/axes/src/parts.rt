// What each axis label adds to document 01's increment ("The metric") at a node: the squared distance on its axis and its prior cost, by the
// vector's table; and what it adds to the keys of the node's children.
ghost use Rattle.std.specs.Prelude.{◌≡◌, ◌+◌, ◌*◌, ◌<◌, ◌≤◌, ◌^◌, pos, nat_abs, ◌-ℤ◌, length};
ghost use Rattle.metric.specs.Keys.{keyed};
ghost use Rattle.metric.specs.Parts.{span, remainder_bound, filled, AllSmall};
ghost use Rattle.metric.specs.Rows.{VectorAsked};
ghost use Rattle.axes.specs.Tables.{key_part, parts_in, Tabled, AxisAsked};

use super::{SPAN, TABLE, labels};
use metric::{AXES, sized};
use tree::{COST_ROOM, Complex, Task};

// What an axis label adds to the increment, by its two entries of the table.
pub fn axis_part(left: i64, product: i32, cost: i32) -> u64
    requires { (nat_abs left < remainder_bound) × (nat_abs product < remainder_bound) × (cost ≡ pos (nat_abs cost)) }
    ensures { result ≡ nat_abs (left -ℤ product) * nat_abs (left -ℤ product) + nat_abs cost }
{
    integers::square(metric::less(left, i64::from(product))) + cost as u64
}

// What it adds to a key: the same, with its prior cost behind it.
fn key_part(left: i64, product: i32, cost: i32) -> u64
    requires { (nat_abs left < remainder_bound) × (nat_abs product < remainder_bound) × (cost ≡ pos (nat_abs cost)) }
    ensures { result ≡ keyed (nat_abs (left -ℤ product) * nat_abs (left -ℤ product) + nat_abs cost) (nat_abs cost) }
{
    let behind = cost as u64;
    axis_part(left, product, cost) * COST_ROOM + behind
}

// What an axis's labels of w bits add to keys, by its entries of the table from a place on.
// Not a part of the table: what is asked of an axis (AxisAsked) and what its entries give (key_part) name the table's places, as in bounding.
fn fill_labels(tables: &[i32; TABLE], at: usize, left: i64, w: usize, parts: &mut [u64])
    requires { AxisAsked tables.now at left w × (span ≤ length parts.old) }
    ensures { parts.new ≡ filled (key_part tables.now at left) (2 ^ w) parts.old }
{
    for g in 0..labels(w) {
        parts[g] = key_part(left, tables[at + g], tables[at + SPAN + g]);
    }
}

// The same; an axis of 64-QAM has three bits, which the compiler is told here.
fn fill_axis(tables: &[i32; TABLE], at: usize, left: i64, w: usize, parts: &mut [u64])
    requires { AxisAsked tables.now at left w × (span ≤ length parts.old) }
    ensures { parts.new ≡ filled (key_part tables.now at left) (2 ^ w) parts.old }
{
    sized::<3, 3, _, _>(w, &mut |w| fill_labels(tables, at, left, w, parts))
}

// What the labels of both axes add to keys at a node, in one array: those of the real labels, then, a span later, those of the imaginary ones.
// `left` is what remains of y in the row. Not a method of expansion's `Vector`: that promises the constellation's points, too, which are not
// asked for here.
pub fn fill_parts(
    task: Task,
    row: usize,
    left: Complex,
    numbers: &[i32],
    tables: &[i32; TABLE],
    axes: &mut [u64; AXES],
)
    requires { VectorAsked task.streams task.width numbers.now
        × Tabled task.streams task.width numbers.now tables.now × (row < task.streams)
        × (nat_abs left.re < remainder_bound) × (nat_abs left.im < remainder_bound) × AllSmall axes.old }
    ensures { axes.new
        ≡ parts_in task.width tables.now row left.re left.im axes.old }
{
    let q = task.width;
    let at = row * (4 * SPAN);
    let (real, imaginary) = axes.split_at_mut(SPAN);
    fill_axis(tables, at, left.re, q - q / 2, real);
    fill_axis(tables, at + 2 * SPAN, left.im, q / 2, imaginary);
}
