// One turn over a node's children (document 01, "The walk"): the next of them is taken, and cut, or stopped at, or to be counted, and then its own
// children are looked at.
#![tactic(auto)]

ghost use Rattle.std.specs.Prelude.{◌≡◌, ◌+◌, ◌*◌, ◌-◌, ◌<◌, ◌≤◌, ◌^◌, length};
ghost use Rattle.model.specs.Block.{most_streams, most_width, most_bits};
ghost use Rattle.limits.specs.Reach.{limits_size};
ghost use Rattle.enumeration.specs.Rows.{key_count, LeastRow};
ghost use Rattle.turn.specs.Limits.{passes_at};
ghost use Rattle.turn.specs.Turn.{NextAsked, NextChild, AdvanceAsked, Advanced};

use enumeration::Row;
use expansion::Vector;
use tree::{COST_ROOM, Kept, Node};

// What a turn over a node's children came to: no child that is left passes; the next child is cut; the allowance is used up; or the child is
// to be counted, and then left, since all of its own children would be cut, or taken as a leaf, or searched.
#[derive(Clone, Copy)]
pub enum Turn {
    Ended,
    Cut,
    Stop,
    Left,
    Leaf(Node),
    Enter(Node),
}

// Does a node of partial metric d pass? `level` streams are not chosen yet, and `chosen` is the widest limit of the chosen bits that are
// opposite to the best label's.
#[tactic(auto, unfolding(crate::specs::Limits::passes_at))]
fn passes(kept: Kept, limits: &[u64], d: u64, level: usize, chosen: u64) -> bool
    requires { (level ≤ most_streams) × (length limits.now ≡ limits_size) }
    ensures { result ≡ passes_at kept.best limits.now chosen d level }
{
    d <= kept.best || d < limits[limits::FIRST + level] || d < chosen
}

// The node's bits with one more symbol before them.
fn with_symbol(symbol: usize, bits: usize, node: u32) -> u32
    requires { (symbol < 2 ^ most_width) × (bits ≤ most_bits) × (node < 2 ^ bits) }
    ensures { result ≡ symbol * 2 ^ bits + node }
{
    ((symbol as u32) << bits) | node
}

// The next child, the first of the smallest keys: squared distance, prior cost and their sum, by that key. Its chosen bits are those of its own
// symbol and its parent's.
fn next_child(
    vector: Vector<'_>,
    node: Node,
    next: Row,
    label: u32,
    limits: &[u64],
    keys: &mut [u64],
) -> Node
    requires { NextAsked vector.task.streams vector.task.width node limits.now keys.old
        × LeastRow vector.task.width keys.old next.row next.key }
    ensures { NextChild vector.entry.task.streams vector.entry.task.width node label limits.now keys.old keys.new result }
{
    let q = vector.task.width;
    let after = (vector.task.streams - node.level) * q;
    let symbol = enumeration::take(q, next.row, keys);
    let own = metric::symbol_at(label, q, after);
    let level = node.level - 1;
    let partial = next.key / COST_ROOM;
    let before = node.cost;
    let cost = before + next.key % COST_ROOM;
    Node {
        level,
        bits: with_symbol(symbol, after, node.bits),
        partial,
        distance: partial - cost,
        cost,
        chosen: integers::larger(
            limits::stream_reach(q, limits, level, symbol ^ own),
            node.chosen,
        ),
    }
}

// One turn over a node's children. They end where the node itself would not pass with the metric in the smallest key that is left; else the
// child with that key is taken, cut or counted, and its own children are looked at; their keys stand behind the node's.
pub fn advance(vector: Vector<'_>, node: Node, kept: Kept, limits: &[u64], keys: &mut [u64]) -> Turn
    requires { AdvanceAsked vector.task vector.numbers.now node kept limits.now keys.old }
    ensures { Advanced vector.entry.task vector.entry.numbers.now node kept limits.now keys.old keys.new result }
{
    let next = enumeration::least_row(vector.task.width, keys);
    let least = next.key / COST_ROOM;
    if !passes(kept, limits, least, node.level, node.chosen) {
        return Turn::Ended;
    }
    let child = next_child(vector, node, next, kept.label, limits, keys);
    if !passes(kept, limits, child.partial, child.level, child.chosen) {
        return Turn::Cut;
    }
    if vector.task.allowance <= kept.count {
        return Turn::Stop;
    }
    if child.level == 0 {
        return Turn::Leaf(child);
    }
    let places = key_places(vector.task.width);
    if !vector.expand(child, kept, limits, &mut keys[places..]) {
        return Turn::Left;
    }
    Turn::Enter(child)
}

// The places of a node's keys: its children's, and the smallest of each row with its column.
pub fn key_places(q: usize) -> usize
    requires { q ≤ most_width }
    ensures { result ≡ key_count q }
{
    (1 << q) + 2 * (1 << (q - q / 2))
}
