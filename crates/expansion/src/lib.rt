// What is found of a node's children before the first of them is tried: all of them would be cut, or their keys are filled in.
#![tactic(auto)]

ghost use Rattle.std.specs.Prelude.{◌≡◌, ◌-◌, ◌*◌, ◌<◌, ◌≤◌, ◌^◌, length};
ghost use Rattle.model.specs.Block.{most_streams, most_width, most_bits};
ghost use Rattle.search_spec.specs.Program.{above};
ghost use Rattle.constellation.specs.Points.{Points};
ghost use Rattle.axes.specs.Tables.{Tabled};
ghost use Rattle.limits.specs.Reach.{limits_size, symbol_of};
ghost use Rattle.hypotheses.specs.Limits.{Asked};
ghost use Rattle.expansion.specs.Expand.{NodeIn, base_of, Remains, OpenAsked, may_pass_at, KeysAsked, keys_for, ExpandAsked, Told};

use axes::TABLE;
use constellation::PLACES;
use metric::AXES;
use tree::{Complex, Kept, Node, Task};

// A vector that is ready to be searched: what its search is asked, the points of its constellation, its numbers, and its table. The ghost fields
// say that a search may be asked for it, and that the points and the table are its own. None of it changes in its search, so it goes by value:
// behind a reference it would be read again after every write to the keys.
#[derive(Clone, Copy)]
pub struct Vector<'a> {
    pub task: Task,
    pub points: &'a [i8; PLACES],
    pub numbers: &'a [i32],
    pub tables: &'a [i32; TABLE],
    pub ghost asked: { Asked task numbers.now },
    pub ghost pointed: { Points task.width points.now },
    pub ghost tabled: { Tabled task.streams task.width numbers.now tables.now },
}

// What all children of a node are held against: below it each of them passes.
fn base_of(node: Node, kept: Kept, limits: &[u64]) -> u64
    requires { (0 < node.level) × (node.level ≤ most_streams) × (kept.best ≤ above) × (length limits.now ≡ limits_size) }
    ensures { result ≡ base_of kept.best limits.now node.chosen node.level }
{
    let free = limits[limits::FIRST + (node.level - 1)];
    integers::larger(integers::larger(kept.best + 1, free), node.chosen)
}

impl Vector<'_> {
    // The best label's symbol at the stream of a node's children.
    fn own_symbol(self, node: Node, label: u32) -> usize
        requires { (0 < node.level) × (node.level ≤ self.task.streams) }
        ensures { (result ≡ symbol_of self.entry.task.streams self.entry.task.width label (node.level - 1)) × (result < 2 ^ self.entry.task.width) }
    {
        let after = (self.task.streams - node.level) * self.task.width;
        metric::symbol_at(label, self.task.width, after)
    }

    // May a child of a node pass? `left` is what remains of y in the row of the children. The distances are asked first, and of a parent of
    // leaves, where there are prior costs, the parts: of other nodes that would cost more than it saves. The entries are written out at each
    // call: with a name of their own they would be made ready at every node.
    fn may_pass(self, node: Node, kept: Kept, left: Complex, limits: &[u64]) -> bool
        requires { OpenAsked self.task self.numbers.now node kept.best left.re left.im limits.now }
        ensures { result ≡ may_pass_at self.entry.task.streams self.entry.task.width self.entry.numbers.now self.entry.tables.now node
            kept.label kept.best left.re left.im limits.now }
    {
        let row = node.level - 1;
        let base = base_of(node, kept, limits);
        let own = self.own_symbol(node, kept.label);
        let at = limits::ENTRIES + row * limits::STREAM;
        if !bounding::some_child_may_pass(
            self.task,
            row,
            left,
            node.partial,
            base,
            self.numbers,
            &limits[at..at + limits::STREAM],
            own,
        ) {
            return false;
        }
        if row != 0 || !bounding::priced(self.task.width, row, self.tables) {
            return true;
        }
        bounding::some_child_may_pass_by_parts(
            self.task.width,
            row,
            left,
            node.partial,
            base,
            self.tables,
            &limits[at..at + limits::STREAM],
            own,
        )
    }

    // What remains of y in the row of a node's children.
    fn remainder(self, node: Node) -> Complex
        requires { NodeIn self.task.streams self.task.width self.task.clip self.numbers.now node × (0 < node.level) }
        ensures { Remains self.entry.task.streams self.entry.task.width self.entry.numbers.now node result.re result.im }
    {
        metric::remainder(
            self.points,
            self.numbers,
            self.task.streams,
            self.task.width,
            node.level - 1,
            node.bits,
        )
    }

    // The keys of all children of a node are filled in, where `left` remains of y in their row. Part of each caller: the walk does it at every
    // node that it enters.
    #[inline(always)]
    fn fill_by(self, node: Node, left: Complex, keys: &mut [u64])
        requires { KeysAsked self.task self.numbers.now node keys.old
            × Remains self.task.streams self.task.width self.numbers.now node left.re left.im }
        ensures { keys.new ≡ keys_for self.entry.task.streams self.entry.task.width self.entry.numbers.now self.entry.tables.now node keys.old }
    {
        let mut axes = [0u64; AXES];
        axes::fill_parts(
            self.task,
            node.level - 1,
            left,
            self.numbers,
            self.tables,
            &mut axes,
        );
        enumeration::fill(self.task.width, node.partial, &axes, keys);
    }

    // The keys of all children of a node are filled in.
    pub fn fill_keys(self, node: Node, keys: &mut [u64])
        requires { KeysAsked self.task self.numbers.now node keys.old }
        ensures { keys.new ≡ keys_for self.entry.task.streams self.entry.task.width self.entry.numbers.now self.entry.tables.now node keys.old }
    {
        self.fill_by(node, self.remainder(node), keys);
    }

    // Where a child of a node may pass the keys of all of them are filled in; else nothing of them is measured, and the answer is false.
    pub fn expand(self, node: Node, kept: Kept, limits: &[u64], keys: &mut [u64]) -> bool
        requires { ExpandAsked self.task self.numbers.now node kept.best limits.now keys.old }
        ensures { Told self.entry.task.streams self.entry.task.width self.entry.numbers.now self.entry.tables.now node kept.label kept.best
            limits.now keys.old keys.new result }
    {
        let left = self.remainder(node);
        if !self.may_pass(node, kept, left, limits) {
            return false;
        }
        self.fill_by(node, left, keys);
        true
    }
}
