// An axis by the distances alone, without a look at a label: what remains of y is folded at 0 and then at the middle of what is left, once for
// each bit.
ghost use Rattle.std.specs.Prelude.{◌≡◌, cond, ◌+◌, ◌*◌, ◌-◌, ◌<◌, ◌≤◌, ◌^◌, nat_abs};
ghost use Rattle.std.specs.Bool.{beq};
ghost use Rattle.model.specs.Block.{most_entry};
ghost use Rattle.metric.specs.Parts.{axis_width, remainder_bound, nearest_of};
ghost use Rattle.bounding.specs.Answers.{any_bit};

use super::{Axis, Limits};
use metric::sized;

// What remains of y on the axis, the diagonal entry of the row, and how many bits a label has.
#[derive(Clone, Copy)]
pub struct ByFolds {
    pub left: i64,
    pub diagonal: u64,
    pub width: usize,
    ghost remains: { nat_abs left < remainder_bound },
    ghost entry: { diagonal ≤ most_entry },
    ghost few: { width ≤ axis_width },
}

// The least that a label can come to whose bit is opposite to `bit`, where the axis is folded: what remains there is below 0 on the side of the
// bit 0. On the near side that is `low`, what the nearest label of all comes to, and on the other side `beyond`.
fn least_opposite(negative: bool, bit: bool, low: u64, beyond: u64) -> u64
    ensures { result ≡ cond (beq negative bit) low beyond }
{
    if negative == bit { low } else { beyond }
}

impl ByFolds {
    // The axis itself, its width given once more as a number that the compiler may know.
    fn with_width(self, width: usize) -> ByFolds
        requires { width ≡ self.width }
        ensures { result ≡ self }
    {
        ByFolds {
            left: self.left,
            diagonal: self.diagonal,
            width,
        }
    }

    // Is a label, with `other` added to its squared distance, below the limit of a bit in which it differs from the best label's part? The
    // nearest label with a bit opposite to that part's is the nearest of all, which comes to `low`, or else the first beyond the fold of that
    // bit. A label that differs in no bit has an entry too, the first; it is 0 once there is a best label, and before that nothing is known
    // of it.
    fn any_bit(self, other: u64, low: u64, limits: Limits) -> bool
        requires { (other < 2 ^ 63) × (limits.own < 2 ^ self.width) }
        ensures { result ≡ any_bit self.left self.diagonal self.width other low limits.entry.entries.now 0 limits.entry.own }
    {
        if low < limits.entries[0] {
            return true;
        }
        // A `for` and not a chain: what remains is folded from bit to bit.
        let mut x = self.left;
        for k in (0..self.width).rev() {
            let bit = (limits.own >> k) & 1 == 1;
            let size = integers::magnitude(x);
            let far = size + self.diagonal;
            let reached = least_opposite(x < 0, bit, low, other + far * far);
            if reached < limits.entries[1 << k] {
                return true;
            }
            x = (self.diagonal << k) as i64 - size as i64;
        }
        false
    }
}

// The same, of an axis by its numbers. An axis of 64-QAM has three bits, one of 16-QAM two and one of 256-QAM four, which the compiler is told
// here: this is called and not inlined, so a size more costs nothing.
fn any_bit_of(left: i64, diagonal: u64, width: usize, other: u64, low: u64, limits: Limits) -> bool
    requires { (nat_abs left < remainder_bound) × (diagonal ≤ most_entry) × (width ≤ axis_width) × (other < 2 ^ 63)
        × (limits.own < 2 ^ width) }
    ensures { result ≡ any_bit left diagonal width other low limits.entry.entries.now 0 limits.entry.own }
{
    let axis = ByFolds {
        left,
        diagonal,
        width,
    };
    sized::<3, 2, _, _>(
        width,
        &mut |w| sized::<4, 4, _, _>(w, &mut |w| axis.with_width(w).any_bit(other, low, limits)),
    )
}

impl Axis for ByFolds {
    ghost bits = { λ a. a.width };

    ghost lowest = { λ a. let near = nearest_of a.diagonal a.width (nat_abs a.left) in near * near };

    ghost any = { λ a other low entries own. any_bit a.left a.diagonal a.width other low entries 0 own };

    fn width(self) -> usize {
        self.width
    }

    // The square of the distance to the nearest label.
    fn least(self) -> u64 {
        let near = metric::nearest(self.left, self.diagonal, self.width);
        near * near
    }

    // A part of the caller, which hands the axis on by its numbers: an axis that is lent to a call would be stored at every node.
    #[inline(always)]
    fn any_below(self, other: u64, low: u64, limits: Limits) -> bool {
        any_bit_of(self.left, self.diagonal, self.width, other, low, limits)
    }
}
