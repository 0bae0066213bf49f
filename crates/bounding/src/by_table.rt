// An axis by its labels' parts, squared distance and prior cost, which are made by the table as they are asked for.
ghost use Rattle.std.specs.Prelude.{◌≡◌, ◌+◌, ◌*◌, ◌-◌, ◌<◌, ◌≤◌, ◌^◌, nat_abs, length};
ghost use Rattle.metric.specs.Parts.{axis_width, span, remainder_bound};
ghost use Rattle.axes.specs.Tables.{table_part};
ghost use Rattle.bounding.specs.Axes.{LeastAsked};
ghost use Rattle.bounding.specs.Answers.{any_part, least_part};
ghost use Rattle.std.proofs.Props.{props};

use super::{Axis, Limits, SPAN};
use metric::{AXES, sized};

// The axis's entries in the vector's table, its labels' products and then their costs, what remains of y on it, and how many bits a label has.
#[derive(Clone, Copy)]
pub struct ByTable<'a> {
    pub entries: &'a [i32; AXES],
    pub left: i64,
    pub width: usize,
    ghost asked: { LeastAsked entries.now 0 left width } by { Prim.hlevel props },
}

impl<'a> ByTable<'a> {
    // The axis itself, its width given once more as a number that the compiler may know.
    fn with_width(self, width: usize) -> ByTable<'a>
        requires { width ≡ self.width }
        ensures { (result.entries.now ≡ self.entry.entries.now) × (result.left ≡ self.entry.left) × (result.width ≡ width) }
    {
        ByTable {
            entries: self.entries,
            left: self.left,
            width,
        }
    }

    // What label g adds.
    fn part(self, g: usize) -> u64
        requires { g < 2 ^ self.width }
        ensures { result ≡ table_part self.entry.entries.now 0 self.entry.left g }
    {
        axes::axis_part(self.left, self.entries[g], self.entries[SPAN + g])
    }

    // Is one of the labels, with `other` added to its part, below the widest limit of the bits in which it differs from the best label's part?
    fn any_part(self, other: u64, limits: Limits) -> bool
        requires { (other < 2 ^ 63) × (limits.own < 2 ^ self.width) }
        ensures { result ≡ any_part limits.entry.entries.now 0 (table_part self.entry.entries.now 0 self.entry.left) other limits.entry.own
            0 (2 ^ self.entry.width) }
    {
        (0..1 << self.width).any(|g| other + self.part(g) < limits.entries[g ^ limits.own])
    }

    // The least of the labels' parts.
    fn least_part(self) -> u64
        ensures { (result ≡ least_part (table_part self.entry.entries.now 0 self.entry.left) (2 ^ self.entry.width - 1)) × (result < 2 ^ 62) }
    {
        (1..1 << self.width).fold(self.part(0), |least, g| least.min(self.part(g)))
    }
}

// The same, of an axis by its entries and numbers. The compiler is told of four bits too: this is called and not inlined, so a size more costs
// nothing.
fn any_part_of(entries: &[i32; AXES], left: i64, width: usize, other: u64, limits: Limits) -> bool
    requires { LeastAsked entries.now 0 left width × (other < 2 ^ 63) × (limits.own < 2 ^ width) }
    ensures { result ≡ any_part limits.entry.entries.now 0 (table_part entries.now 0 left) other limits.entry.own 0 (2 ^ width) }
{
    let axis = ByTable {
        entries,
        left,
        width,
    };
    sized::<3, 2, _, _>(
        width,
        &mut |w| sized::<4, 4, _, _>(w, &mut |w| axis.with_width(w).any_part(other, limits)),
    )
}

impl Axis for ByTable<'_> {
    ghost bits = { λ a. a.width };

    ghost lowest = { λ a. least_part (table_part a.entries.now 0 a.left) (2 ^ a.width - 1) };

    ghost any = { λ a other low entries own. any_part entries 0 (table_part a.entries.now 0 a.left) other own 0 (2 ^ a.width) };

    fn width(self) -> usize {
        self.width
    }

    // The compiler is told of three bits and of two here too.
    fn least(self) -> u64 {
        sized::<3, 2, _, _>(self.width, &mut |w| self.with_width(w).least_part())
    }

    // A part of the caller, as with folds.
    #[inline(always)]
    fn any_below(self, other: u64, _low: u64, limits: Limits) -> bool {
        any_part_of(self.entries, self.left, self.width, other, limits)
    }
}
