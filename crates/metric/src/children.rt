// The keys of a node's children, with their partial metrics (document 01, "The walk") and prior costs, in one pass: a child's is what the node
// gives to all, `shared`, plus what its two axis labels add.
ghost use Rattle.std.specs.Prelude.{◌≡◌, ◌+◌, ◌*◌, ◌-◌, ◌/◌, ◌<◌, ◌≤◌, ◌^◌, map, length};
ghost use Rattle.model.specs.Block.{most_width};
ghost use Rattle.metric.specs.Parts.{span, imaginary_in, row_metric, measured_to, filled_from, AllSmall};
ghost use Rattle.metric.specs.Children.{PartedTo};

use super::{AXES, SPAN, sized};

// Keys that share `base`, each with its own part: those of a row of the constellation, the children with one real label, by their imaginary
// labels; or of a column, by their real ones.
pub fn fill_sums(base: u64, parts: &[u64], keys: &mut [u64])
    requires { (base < 2 ^ 63) × AllSmall parts.now × (length parts.now ≡ length keys.old) }
    ensures { keys.new ≡ map (λ part. base + part) parts.now }
{
    for (i, part) in parts.iter().enumerate() {
        keys[i] = base + part;
    }
}

// The pass over a node's children: the bits of a symbol, what the node gives to the keys of all, and the parts of both axes.
#[derive(Clone, Copy)]
struct Pass<'a> {
    q: usize,
    shared: u64,
    axes: &'a [u64; AXES],
    ghost asked: { (q ≤ most_width) × (shared < 2 ^ 62) × AllSmall axes.now },
}

impl Pass<'_> {
    // How many children a row of the constellation has: the labels of the imaginary axis.
    fn columns(&self) -> usize
        ensures { (result ≡ 2 ^ (self.now.q / 2)) × (result ≤ span) }
    {
        1 << (self.q / 2)
    }

    // The children of the first rows of the constellation, row by row: each place is written once, with its whole increment. The parts of the
    // imaginary labels are copied to an array of the pass's own: the compiler then knows that no key stands among them, and reads each but once.
    fn fill_rows(&self, rows: usize, keys: &mut [u64])
        requires { (2 ^ self.now.q ≤ length keys.old) × (rows ≤ 2 ^ (self.now.q - self.now.q / 2)) }
        ensures { keys.new ≡ measured_to self.now.q self.now.shared self.now.axes.now (rows * 2 ^ (self.now.q / 2)) keys.old }
    {
        let axes = self.axes;
        let n = self.columns();
        let mut parts = [0; SPAN];
        let imaginary = &mut parts[..n];
        imaginary.copy_from_slice(&axes[SPAN..SPAN + n]);
        for a in 0..rows {
            fill_sums(
                self.shared + axes[a],
                imaginary,
                &mut keys[a * n..a * n + n],
            );
        }
    }

    // The pass over the children as far as the first k: whole rows, and the first columns of the next one. Each of the k has squared distance,
    // prior cost and their sum.
    fn fill_first(&self, k: usize, keys: &mut [u64])
        requires { (2 ^ self.now.q ≤ length keys.old) × (k ≤ 2 ^ self.now.q) }
        ensures { (keys.new ≡ measured_to self.now.q self.now.shared self.now.axes.now k keys.old)
            × PartedTo self.now.q self.now.shared self.now.axes.now k keys.new }
    {
        let axes = self.axes;
        let n = self.columns();
        let rows = k / n;
        self.fill_rows(rows, keys);
        fill_sums(
            self.shared + axes[rows],
            &axes[SPAN..SPAN + k % n],
            &mut keys[rows * n..k],
        )
    }
}

// The pass over all children.
fn fill_all(q: usize, shared: u64, axes: &[u64; AXES], keys: &mut [u64])
    requires { (q ≤ most_width) × (shared < 2 ^ 62) × AllSmall axes.now × (2 ^ q ≤ length keys.old) }
    ensures { (keys.new ≡ measured_to q shared axes.now (2 ^ q) keys.old)
        × PartedTo q shared axes.now (2 ^ q) keys.new }
{
    Pass { q, shared, axes }.fill_first(1 << q, keys)
}

// The same, with the rows and columns of 64-QAM and 16-QAM made known to the compiler.
pub fn fill_children(q: usize, shared: u64, axes: &[u64; AXES], keys: &mut [u64])
    requires { (q ≤ most_width) × (shared < 2 ^ 62) × AllSmall axes.now × (2 ^ q ≤ length keys.old) }
    ensures { (keys.new ≡ measured_to q shared axes.now (2 ^ q) keys.old)
        × PartedTo q shared axes.now (2 ^ q) keys.new }
{
    let mut pass = |q| fill_all(q, shared, axes, keys);
    sized::<6, 4, _, _>(q, &mut pass)
}
