// The search of one vector (document 01, "The walk"): the walk under an allowance, turn by turn, and the vector's answer.
#![tactic(auto)]

ghost use Rattle.std.specs.Prelude.{◌≡◌, true, false, ◌+◌, ◌*◌, ◌-◌, ◌<◌, ◌≤◌, ◌^◌, length};
ghost use Rattle.model.specs.Block.{empty_side, most_streams, most_width};
ghost use Rattle.constellation.specs.Points.{Points};
ghost use Rattle.search_spec.specs.Program.{taken_in, limits_of, kept_of, below};
ghost use Rattle.search_spec.specs.Parts.{BestParts};
ghost use Rattle.limits.specs.Reach.{limits_size};
ghost use Rattle.hypotheses.specs.Limits.{vector_for, Asked, minima_size, Limited};
ghost use Rattle.expansion.specs.Expand.{Filled};
ghost use Rattle.search.specs.Nodes.{key_places, Renewal, NodeAsked};
ghost use Rattle.search.specs.Values.{Answered};

use axes::TABLE;
use constellation::PLACES;
use expansion::Vector;
use tree::{ABOVE, Kept, Node, Task};
use turn::Turn;

// The places of the keys of all levels: three of 256 children and two for each of 16 rows, or four of 64 and two for each of 8.
pub const KEYS: usize = 3 * 288;

// One node more is counted.
fn counted(kept: Kept) -> Kept
    requires { kept.count < 2 ^ 32 - 1 }
    ensures { result ≡ record kept { count = kept.count + 1 } }
{
    Kept {
        count: kept.count + 1,
        ..kept
    }
}

// The allowance is used up.
fn halted(kept: Kept) -> Kept
    ensures { result ≡ record kept { stopped = true } }
{
    Kept {
        stopped: true,
        ..kept
    }
}

// A node after leaves were walked below it: the limits and the best label may be others.
fn renew_node(vector: Vector<'_>, node: Node, label: u32, limits: &[u64]) -> Node
    requires { (node.level ≤ vector.task.streams) × (length limits.now ≡ limits_size) }
    ensures { Renewal vector.entry.task.streams vector.entry.task.width label limits.now node result }
{
    Node {
        chosen: limits::chosen(
            vector.task.streams,
            vector.task.width,
            limits,
            node.level,
            node.bits ^ label,
        ),
        ..node
    }
}

// The search below a node: its children, whose keys are filled in, are tried in order, each cut, counted, taken as a leaf or searched, until
// they end. The keys of the levels below stand behind them. The vector is lent, so that no level hands on a copy.
fn walk(
    vector: &Vector<'_>,
    node: Node,
    kept: Kept,
    minima: &mut [u64; hypotheses::MINIMA],
    keys: &mut [u64],
) -> Kept
    requires asked { NodeAsked vector.now.task.streams vector.now.task.width vector.now.task.clip vector.now.numbers.now node
        (taken_in kept.label kept.best minima.old) (limits_of minima.old) keys.old }
    requires inner { 0 < node.level }
    requires running { kept.stopped ≡ false }
    requires filled { Filled vector.now.task.streams vector.now.task.width vector.now.numbers.now node keys.old }
    requires parts { BestParts (vector_for vector.now.task vector.now.numbers.now) kept }
    ensures found { kept_of result.count result.stopped (taken_in result.label result.best minima.new)
        ≡ below (vector_for vector.now.task vector.now.numbers.now) vector.now.task.allowance node.level node.bits node.partial
        (kept_of kept.count false (taken_in kept.label kept.best minima.old)) }
    ensures limited { Limited (vector_for vector.now.task vector.now.numbers.now) (taken_in result.label result.best minima.new)
        (limits_of minima.new) }
    ensures parts { BestParts (vector_for vector.now.task vector.now.numbers.now) result }
{
    // Copied once: the compiler would read what is lent anew after each key that it stores.
    let own = *vector;
    // By its range the proof knows that a count below it can grow by one.
    let _allowance = vector.task.allowance;
    let places = turn::key_places(own.task.width);
    let mut k = kept;
    let mut parent = node;
    // By how many are left: the compiler would compare a count of those that were tried with 2^Q by a shift, at every turn.
    for _left in (0..axes::labels(own.task.width)).rev() {
        // Not closures: every arm may change the minima, the keys and what is kept, which two closures can't borrow at once.
        match turn::advance(own, parent, k, &minima[hypotheses::LIMITS..], keys) {
            Turn::Ended => return k,
            Turn::Stop => return halted(k),
            Turn::Left => {
                k = counted(k);
            }
            Turn::Leaf(leaf) => {
                k = hypotheses::take(own.task, leaf, counted(k), own.numbers, minima);
                parent = renew_node(own, parent, k.label, &minima[hypotheses::LIMITS..]);
            }
            Turn::Enter(child) => {
                k = walk(vector, child, counted(k), minima, &mut keys[places..]);
                if k.stopped {
                    return k;
                }
                parent = renew_node(own, parent, k.label, &minima[hypotheses::LIMITS..]);
            }
            Turn::Cut => {}
        }
    }
    k
}

// The search below the root. Before the first leaf nothing is cut, so the keys of its children are filled in at once; and `expand` has one
// caller, which the compiler then makes it part of.
fn begin(
    vector: Vector<'_>,
    root: Node,
    kept: Kept,
    minima: &mut [u64; hypotheses::MINIMA],
    keys: &mut [u64],
) -> Kept
    requires asked { NodeAsked vector.task.streams vector.task.width vector.task.clip vector.numbers.now root
        (taken_in kept.label kept.best minima.old) (limits_of minima.old) keys.old }
    requires inner { 0 < root.level }
    requires running { kept.stopped ≡ false }
    requires parts { BestParts (vector_for vector.task vector.numbers.now) kept }
    ensures found { kept_of result.count result.stopped (taken_in result.label result.best minima.new)
        ≡ below (vector_for vector.entry.task vector.entry.numbers.now) vector.entry.task.allowance root.level root.bits root.partial
        (kept_of kept.count false (taken_in kept.label kept.best minima.old)) }
    ensures parts { BestParts (vector_for vector.entry.task vector.entry.numbers.now) result }
{
    vector.fill_keys(root, keys);
    walk(&vector, root, kept, minima, keys)
}

// What a reply says of a vector, but for its soft values, and the label's squared distance. `stopped` is document 01's mark, which the reply
// has beside every label: a value of its own, and so no Option round another.
#[derive(Clone, Copy)]
pub struct Found {
    pub stopped: bool,
    pub count: u32,
    pub label: u32,
    pub distance: u64,
}

// What an empty side gives: W in a stopped vector, else C.
fn empty_side(stopped: bool, weak: u32, clip: u32) -> u32
    ensures { result ≡ empty_side stopped weak clip }
{
    if stopped { weak } else { clip }
}

// One vector's search under an allowance of M nodes or more: its answer, the soft values at the front of `soft`. `weak` is W, which the walk is
// not told; `points` are those of the constellation, and `keys` is room to work in. Not over a
// `Vector`: it makes the table that one must already have.
pub fn search_vector(
    task: Task,
    weak: u32,
    points: &[i8; PLACES],
    numbers: &[i32],
    keys: &mut [u64],
    soft: &mut [i32; 24],
) -> Found
    requires { Asked task numbers.now × (weak ≤ task.clip) × (length soft.old ≡ 24) × (key_places ≤ length keys.old)
        × Points task.width points.now × (task.streams ≤ task.allowance) }
    ensures { Answered (vector_for task numbers.now) weak task.allowance result.stopped result.count result.label result.distance
        soft.old soft.new }
{
    let mut tables = [0i32; TABLE];
    axes::prepare(task, points, numbers, &mut tables);
    // Before the first leaf every minimum is infinite, and so is B: everything passes, whatever the limits are.
    let mut minima = [ABOVE; hypotheses::MINIMA];
    let start = Kept {
        count: 0,
        stopped: false,
        label: 0,
        best: ABOVE,
        distance: 0,
        cost: 0,
    };
    let root = Node {
        level: task.streams,
        bits: 0,
        partial: 0,
        distance: 0,
        cost: 0,
        chosen: 0,
    };
    let vector = Vector {
        task,
        points,
        numbers,
        tables: &tables,
    };
    let end = begin(vector, root, start, &mut minima, keys);
    let empty = empty_side(end.stopped, weak, task.clip);
    hypotheses::write_soft(task, empty, numbers, &minima, soft);
    Found {
        stopped: end.stopped,
        count: end.count,
        label: end.label,
        distance: end.distance,
    }
}
