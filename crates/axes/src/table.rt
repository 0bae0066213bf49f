// What of document 01's increment ("The metric") depends on the vector alone, in a table: for each axis of each row, the diagonal entry times
// the amplitude of each axis label, and each label's prior cost.
ghost use Rattle.std.specs.Prelude.{◌≡◌, ◌*◌, ◌<◌, ◌≤◌, ◌^◌, nat_abs, ◌*ℤ◌, length};
ghost use Rattle.model.specs.Metric.{bit_cost};
ghost use Rattle.model.specs.Block.{most_entry};
ghost use Rattle.constellation.specs.Points.{Points};
ghost use Rattle.metric.specs.Parts.{span, axis_cost, filled};
ghost use Rattle.metric.specs.Rows.{VectorAsked};
ghost use Rattle.axes.specs.Tables.{table_size, label_product, label_cost, entries_in, rows_in, AmplitudesAsked, PriorsAsked, EntriesAsked};

use super::{SPAN, TABLE, double, labels};
use constellation::PLACES;
use metric::sized;
use tree::Task;

// The cost of a bit against its prior: the magnitude where the bit goes against the sign.
fn bit_cost(prior: i64, bit: bool) -> u64
    ensures { result ≡ bit_cost prior bit }
{
    let negative = prior < 0;
    if negative == bit {
        return 0;
    }
    integers::magnitude(prior)
}

// The prior cost of the axis label whose bits are all 0.
fn first_cost(priors: &[i32]) -> u64
    requires { PriorsAsked priors.now }
    ensures { result ≡ axis_cost priors.now (length priors.now) 0 }
{
    priors
        .iter()
        .map(|prior| bit_cost(i64::from(*prior), false))
        .sum()
}

// The diagonal entry times an amplitude.
fn axis_product(diagonal: i64, amplitude: i64) -> i32
    requires { (nat_abs diagonal ≤ most_entry) × (nat_abs amplitude < span) }
    ensures { result ≡ diagonal *ℤ amplitude }
{
    (diagonal * amplitude) as i32
}

// Where the amplitudes of an axis stand in the points: the place of the first, how far they are apart, and the bits of their labels.
#[derive(Clone, Copy)]
struct Amplitudes {
    first: usize,
    step: usize,
    bits: usize,
}

impl Amplitudes {
    // The diagonal entry times each of them.
    fn fill_label_products(self, points: &[i8; PLACES], diagonal: i64, products: &mut [i32])
        requires { AmplitudesAsked points.now self.first self.step self.bits
            × (nat_abs diagonal ≤ most_entry) × (span ≤ length products.old) }
        ensures { products.new ≡ filled (label_product diagonal self.bits) (2 ^ self.bits) products.old }
    {
        for g in 0..labels(self.bits) {
            let amplitude = metric::amplitude(points, self.first + g * self.step);
            products[g] = axis_product(diagonal, amplitude);
        }
    }

    // The same; an axis of 64-QAM has three bits and one of 16-QAM two, which the compiler is told here.
    fn fill_products(self, points: &[i8; PLACES], diagonal: i64, products: &mut [i32])
        requires { AmplitudesAsked points.now self.first self.step self.bits
            × (nat_abs diagonal ≤ most_entry) × (span ≤ length products.old) }
        ensures { products.new ≡ filled (label_product diagonal self.bits) (2 ^ self.bits) products.old }
    {
        sized::<3, 2, _, _>(
            self.bits,
            &mut |bits| {
                Amplitudes { bits, ..self }.fill_label_products(points, diagonal, products)
            },
        )
    }
}

// The prior costs of an axis's labels, by the priors of its bits: that of the label whose bits are all 0, doubled for each bit from the last
// one on. The cost of a label with one bit more that is 1 is greater by the bit's prior with its sign, which is what a 1 costs more than a 0.
fn fill_label_costs(priors: &[i32], costs: &mut [i32])
    requires { PriorsAsked priors.now × (span ≤ length costs.old) }
    ensures { costs.new ≡ filled (label_cost priors.now (length priors.now)) (2 ^ length priors.now) costs.old }
{
    let w = priors.len();
    costs[0] = first_cost(priors) as i32;
    for b in 0..w {
        let prior = priors[w - 1 - b];
        double(costs, labels(b), move |cost| cost + prior);
    }
}

// The same, with the three bits or two made known to the compiler.
fn fill_costs(priors: &[i32], costs: &mut [i32])
    requires { PriorsAsked priors.now × (span ≤ length costs.old) }
    ensures { costs.new ≡ filled (label_cost priors.now (length priors.now)) (2 ^ length priors.now) costs.old }
{
    sized::<3, 2, _, _>(
        priors.len(),
        &mut |w| { fill_label_costs(&priors[..w], costs) },
    )
}

// An axis's entries of the table: a span of products and one of costs.
fn fill_entries(
    points: &[i8; PLACES],
    axis: Amplitudes,
    priors: &[i32],
    diagonal: i64,
    entries: &mut [i32],
)
    requires { AmplitudesAsked points.now axis.first axis.step axis.bits × EntriesAsked priors.now diagonal axis.bits
        × (2 * span ≤ length entries.old) }
    ensures { entries.new ≡ entries_in entries.old 0 diagonal priors.now axis.bits }
{
    let (products, costs) = entries.split_at_mut(SPAN);
    axis.fill_products(points, diagonal, products);
    fill_costs(priors, costs);
}

// What depends on the vector alone: for each axis of each row, the diagonal entry times the amplitude of each axis label, and each label's
// prior cost.
pub fn prepare(task: Task, points: &[i8; PLACES], numbers: &[i32], tables: &mut [i32; TABLE])
    requires { VectorAsked task.streams task.width numbers.now × Points task.width points.now }
    ensures { tables.new ≡ rows_in task.streams task.width numbers.now task.streams tables.old }
{
    let m = task.streams;
    let q = task.width;
    let real = Amplitudes {
        first: 0,
        step: 2 * labels(q / 2),
        bits: q - q / 2,
    };
    let imaginary = Amplitudes {
        first: 1,
        step: 2,
        bits: q / 2,
    };
    for row in 0..m {
        let diagonal = metric::element(numbers, row * (2 * m - row));
        let priors = m * m + 2 * m + row * q;
        let later = priors + real.bits;
        let at = row * (4 * SPAN);
        let next = at + 2 * SPAN;
        fill_entries(
            points,
            real,
            &numbers[priors..later],
            diagonal,
            &mut tables[at..next],
        );
        fill_entries(
            points,
            imaginary,
            &numbers[later..priors + q],
            diagonal,
            &mut tables[next..next + 2 * SPAN],
        );
    }
}
