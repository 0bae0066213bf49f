// What a search keeps of its leaves: the best label, the least metric with each bit 0 and with it 1, and the limits that these give; at the end
// the soft values.
#![tactic(auto)]

ghost use Rattle.std.specs.Prelude.{◌≡◌, cond, ◌*◌, ◌<◌, ◌≤◌, ◌^◌, min, nat_abs, length, get_or, set, take, [], ◌∷◌, ◌++◌};
ghost use Rattle.model.specs.Metric.{prior_at};
ghost use Rattle.model.specs.Order.{earlier};
ghost use Rattle.model.specs.Soft.{soft_value};
ghost use Rattle.model.specs.Block.{most_bits, most_clip};
ghost use Rattle.metric.specs.Rows.{VectorAsked};
ghost use Rattle.metric.specs.Parts.{bit_of, filled};
ghost use Rattle.search_spec.specs.Program.{above, side_of, value_of, taken_in, zeros_of, ones_of, limits_of, kept_of, reach_of, cost_at, noted};
ghost use Rattle.search_spec.specs.Parts.{BestParts};
ghost use Rattle.hypotheses.specs.Limits.{vector_for, Asked, up_of, limit_at, minima_size, minimum_place, NotedTo, NarrowedTo, lowered_both, LowBeside, Limited, Renewed, limits_after, PartsAfter};
ghost use Rattle.limits.specs.Reach.{reaches_in};
ghost use Rattle.hypotheses.specs.Values.{MinimaLow};

use metric::LABEL_BITS;
use tree::{ABOVE, Kept, Node, Task};

// The places of the array of minima: the least metrics with each bit 0, then, from here on, those with it 1,
const ONES: usize = LABEL_BITS;

// then the limits with what they give.
pub const LIMITS: usize = 2 * ONES;

// One array of numbers, not a struct of options: `taken_in`, `limits_of` and `side_of` of search_spec are of its places, and ABOVE is none.
pub const MINIMA: usize = LIMITS + limits::LIMITS;

// B + C with the prior, by the sign that the best label's bit gives it.
fn clip_limit(far: u64, prior: i64, bit: bool) -> i64
    requires { (far < 2 ^ 44) × (nat_abs prior < 2 ^ 31) }
    ensures { result ≡ reach_of bit far prior }
{
    let center = far as i64;
    if bit { center - prior } else { center + prior }
}

// The smaller of a least metric and a reach; nothing is below a negative one.
fn limit(opposite: u64, reach: i64) -> u64
    ensures { result ≡ min opposite (up_of reach) }
{
    opposite.min(reach.max(0) as u64)
}

// Does a leaf come before the best label? By metric, equal ones by prior cost, and only then by number.
#[tactic(auto, unfolding(model::specs::Order::earlier))]
fn comes_sooner(leaf: Node, kept: Kept) -> bool
    ensures { result ≡ earlier (leaf.partial ∷ leaf.cost ∷ leaf.bits ∷ []) (kept.best ∷ kept.cost ∷ kept.label ∷ []) }
{
    (leaf.partial, leaf.cost, leaf.bits) < (kept.best, kept.cost, kept.label)
}

// The least metric at place i, after one of d.
fn lower(least: &mut [u64], i: usize, d: u64)
    requires { i < length least.old }
    ensures { least.new ≡ set least.old i (min d (get_or least.old i 0)) }
{
    least[i] = least[i].min(d);
}

// The place of the least metric with bit i as it is.
fn minimum_place(bit: bool, i: usize) -> usize
    requires { i < most_bits }
    ensures { (result ≡ minimum_place bit i) × (result < 2 * most_bits) }
{
    if bit { ONES + i } else { i }
}

// A leaf's metric is taken into the least ones of its bits, in one pass: each bit lowers the one of its side.
fn note(n: usize, leaf: Node, minima: &mut [u64; MINIMA])
    requires { n ≤ most_bits }
    ensures { NotedTo n leaf.bits leaf.partial n minima.old minima.new
        × (limits_of minima.new ≡ limits_of minima.old) }
{
    for i in 0..n {
        let bit = metric::bit_at(n, leaf.bits, i);
        lower(minima, minimum_place(bit, i), leaf.partial);
    }
}

// A leaf's metric at a bit in which it is opposite to the best label: it is taken into the least one of the bit's side, and into the limit.
fn narrow_at(n: usize, leaf: Node, i: usize, minima: &mut [u64; MINIMA])
    requires { (n ≤ most_bits) × (i < n) }
    ensures { minima.new ≡ lowered_both (bit_of n leaf.bits i) i leaf.partial minima.old }
{
    let bit = metric::bit_at(n, leaf.bits, i);
    lower(minima, minimum_place(bit, i), leaf.partial);
    lower(minima, LIMITS + i, leaf.partial);
}

// The same as `note` for a leaf that leaves the best label as it is: its metric is taken into the limits, too, of its bits that are opposite to
// that label's, which are 1 in `opposed`. Nothing else can change: at the other bits the least metric of the leaf's side is the best label's
// own, or below it. So only the ones are visited, from the last bit on.
fn narrow(n: usize, leaf: Node, opposed: u32, minima: &mut [u64; MINIMA])
    requires { (n ≤ most_bits) × (opposed < 2 ^ n) × LowBeside n leaf.bits opposed leaf.partial minima.old }
    ensures { NarrowedTo n leaf.bits opposed leaf.partial n minima.old minima.new }
{
    let mut rest = opposed;
    let mut i = n;
    // Not a `for`: a turn goes from one bit that is 1 to the next, past the zeros between.
    while rest != 0 {
        let zeros = rest.trailing_zeros();
        i = i - 1 - zeros as usize;
        narrow_at(n, leaf, i, minima);
        rest = (rest >> zeros) >> 1;
    }
}

// The least metric at place i with the bit opposite to the best label's.
fn opposite(bit: bool, minima: &[u64; MINIMA], i: usize) -> u64
    requires { i < most_bits }
    ensures { result ≡ get_or (cond bit (zeros_of minima.now) (ones_of minima.now)) i 0 }
{
    minima[minimum_place(!bit, i)]
}

// What a search is asked, with its vector's numbers.
#[derive(Clone, Copy)]
struct Vector<'a> {
    task: Task,
    numbers: &'a [i32],
    ghost asked: { Asked task numbers.now },
}

impl Vector<'_> {
    // How many bits a label has.
    fn bits(&self) -> usize
        ensures { (result ≡ self.now.task.streams * self.now.task.width) × (result ≤ most_bits) }
    {
        self.task.streams * self.task.width
    }

    // The prior of bit i.
    fn prior_at(&self, i: usize) -> i64
        requires { i < self.now.task.streams * self.now.task.width }
        ensures { (result ≡ prior_at (vector_for self.now.task self.now.numbers.now) i) × (nat_abs result < 2 ^ 31) }
    {
        let m = self.task.streams;
        metric::element(self.numbers, m * m + 2 * m + i)
    }

    // Bit i's limit.
    fn limit_at(&self, best: Node, minima: &[u64; MINIMA], i: usize) -> u64
        requires { (i < self.now.task.streams * self.now.task.width) × (best.partial ≤ above) }
        ensures { result
            ≡ limit_at (vector_for self.now.task self.now.numbers.now) (taken_in best.bits best.partial minima.now) i }
    {
        let bit = metric::bit_at(self.bits(), best.bits, i);
        let far = clip_limit(best.partial + self.task.clip as u64, self.prior_at(i), bit);
        limit(opposite(bit, minima, i), far)
    }

    // The limits of all bits, behind their minima.
    fn limit_all(&self, best: Node, minima: &mut [u64; MINIMA])
        requires { best.partial ≤ above }
        ensures { minima.new
            ≡ take (2 * most_bits) minima.old
            ++ filled (limit_at (vector_for self.now.task self.now.numbers.now) (taken_in best.bits best.partial minima.old))
            (self.now.task.streams * self.now.task.width) (limits_of minima.old) }
    {
        for i in 0..self.bits() {
            minima[LIMITS + i] = self.limit_at(best, minima, i);
        }
    }

    // The limits of all bits and what they give, behind the minima.
    fn renew_limits(&self, best: Node, minima: &mut [u64; MINIMA])
        requires { best.partial ≤ above }
        ensures { Renewed (vector_for self.now.task self.now.numbers.now) best.bits best.partial minima.old minima.new
            × (limits_of minima.new
            ≡ reaches_in self.now.task.width
            (filled (limit_at (vector_for self.now.task self.now.numbers.now) (taken_in best.bits best.partial minima.old))
            (self.now.task.streams * self.now.task.width) (limits_of minima.old)) self.now.task.streams) }
    {
        self.limit_all(best, minima);
        limits::fill(
            self.task.streams,
            self.task.width,
            &mut minima[LIMITS..],
            limits::ALL,
        );
    }
}

// A leaf is taken into the best label, the minima and the limits. Most leaves of a long walk do not come before the best label: B and m
// stay, and few limits change. What is kept goes through whole: put together anew by the caller it would cost more.
pub fn take(task: Task, leaf: Node, kept: Kept, numbers: &[i32], minima: &mut [u64; MINIMA]) -> Kept
    requires { Asked task numbers.now × (leaf.partial < above)
        × (leaf.bits < 2 ^ (task.streams * task.width))
        × Limited (vector_for task numbers.now) (taken_in kept.label kept.best minima.old) (limits_of minima.old)
        × (leaf.cost ≡ cost_at (vector_for task numbers.now) leaf.bits) × BestParts (vector_for task numbers.now) kept }
    ensures { (kept_of result.count result.stopped (taken_in result.label result.best minima.new)
        ≡ kept_of kept.count kept.stopped
        (noted (vector_for task numbers.now) leaf.bits leaf.partial
        (taken_in kept.label kept.best minima.old)))
        × (limits_of minima.new
        ≡ limits_after (vector_for task numbers.now) task.streams leaf.bits leaf.partial
        (taken_in kept.label kept.best minima.old) (limits_of minima.old))
        × Limited (vector_for task numbers.now) (taken_in result.label result.best minima.new)
        (limits_of minima.new) × (length minima.new ≡ minima_size) × PartsAfter (vector_for task numbers.now) leaf kept result }
{
    let vector = Vector { task, numbers };
    let n = vector.bits();
    if !comes_sooner(leaf, kept) {
        let opposed = leaf.bits ^ kept.label;
        narrow(n, leaf, opposed, minima);
        limits::fill(task.streams, task.width, &mut minima[LIMITS..], opposed);
        return kept;
    }
    note(n, leaf, minima);
    vector.renew_limits(leaf, minima);
    Kept {
        label: leaf.bits,
        best: leaf.partial,
        distance: leaf.distance,
        cost: leaf.cost,
        ..kept
    }
}

// A bit's soft value, from the least metric with it 1, the least with it 0, the prior, C and what an empty side gives.
fn soft_value(one: u64, zero: u64, prior: i64, clip: u32, empty: u32) -> i32
    requires { (one ≤ above) × (zero ≤ above) × (nat_abs prior < 2 ^ 31) × (clip ≤ most_clip) × (empty ≤ clip) }
    ensures { result ≡ soft_value clip empty prior (side_of one) (side_of zero) }
{
    if one == ABOVE {
        return empty as i32;
    }
    if zero == ABOVE {
        return -(empty as i32);
    }
    integers::clip(one as i64 - zero as i64 - prior, clip)
}

// The soft values of all bits; `empty` is what an empty side gives.
pub fn write_soft(
    task: Task,
    empty: u32,
    numbers: &[i32],
    minima: &[u64; MINIMA],
    soft: &mut [i32; LABEL_BITS],
)
    requires { Asked task numbers.now × (empty ≤ task.clip) × MinimaLow (zeros_of minima.now) (ones_of minima.now) }
    ensures { soft.new
        ≡ filled (value_of (vector_for task numbers.now) empty (taken_in 0 0 minima.now))
        (task.streams * task.width) soft.old }
{
    let vector = Vector { task, numbers };
    for i in 0..vector.bits() {
        let prior = vector.prior_at(i);
        soft[i] = soft_value(minima[ONES + i], minima[i], prior, task.clip, empty);
    }
}
