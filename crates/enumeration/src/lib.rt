// The keys of a node's children, and the next child: the smallest key, found by the smallest of each row of the constellation, which are
// kept behind the keys with the column of each.
#![tactic(auto)]

ghost use Rattle.std.specs.Prelude.{◌≡◌, ◌+◌, ◌*◌, ◌<◌, ◌≤◌, ◌^◌, length, drop};
ghost use Rattle.model.specs.Block.{most_width};
ghost use Rattle.metric.specs.Keys.{cost_room};
ghost use Rattle.metric.specs.Parts.{span, filled_from, AllSmall};
ghost use Rattle.search_spec.specs.Arrays.{least_first};
ghost use Rattle.search_spec.specs.Program.{above};
ghost use Rattle.enumeration.specs.Rows.{row_count, column_count, key_count, column_metric, same_column, RowLeast, LeastRow, keys_in, keys_after};

use metric::{AXES, sized};
use tree::{COST_ROOM, TRIED};

// A row of the constellation, by its real label, and its smallest key.
#[derive(Clone, Copy)]
pub struct Row {
    pub row: usize,
    pub key: u64,
}

// How many children a node has, and how many rows and columns of the constellation they are: a column has one imaginary label.
#[derive(Clone, Copy)]
struct Grid {
    children: usize,
    rows: usize,
    columns: usize,
}

impl Grid {
    fn of(q: usize) -> Self
        requires { q ≤ most_width }
        ensures { (result.children ≡ 2 ^ q) × (result.rows ≡ row_count q) × (result.columns ≡ column_count q)
            × (1 ≤ result.rows) × (1 ≤ result.columns) × (result.rows ≤ span) × (result.columns ≤ span) }
    {
        Grid {
            children: 1 << q,
            rows: 1 << (q - q / 2),
            columns: 1 << (q / 2),
        }
    }
}

// The place of the smallest key, the first one of equals.
fn least_of(keys: &[u64]) -> usize
    requires { 1 ≤ length keys.now }
    ensures { (result ≡ least_first keys.now (length keys.now)) × (result < length keys.now) }
{
    let mut least = 0;
    let mut key = keys[0];
    for k in 1..keys.len() {
        let next = keys[k];
        if next < key {
            least = k;
            key = next;
        }
    }
    least
}

// The same; an axis of 64-QAM has eight labels, which the compiler is told here, and no other size: with one more the function is no longer
// inlined.
fn least_first(keys: &[u64]) -> usize
    requires { 1 ≤ length keys.now }
    ensures { (result ≡ least_first keys.now (length keys.now)) × (result < length keys.now) }
{
    sized::<8, 8, _, _>(keys.len(), &mut |n| least_of(&keys[..n]))
}

// The smallest key of each row, from the real labels' parts: `base` is what the smallest ones share; behind them the column of each.
fn fill_rows(rows: usize, base: u64, column: u64, axes: &[u64; AXES], least: &mut [u64])
    requires { (base < 2 ^ 63) × AllSmall axes.now × (rows ≤ span) × (2 * rows ≤ length least.old) }
    ensures { least.new
        ≡ filled_from rows (same_column column) rows (filled_from 0 (column_metric base axes.now) rows least.old) }
{
    metric::fill_sums(base, &axes[0..rows], &mut least[..rows]);
    least[rows..2 * rows].fill(column);
}

// The same, with the rows of 64-QAM and 16-QAM made known to the compiler.
fn fill_least(rows: usize, base: u64, column: u64, axes: &[u64; AXES], least: &mut [u64])
    requires { (base < 2 ^ 63) × AllSmall axes.now × (rows ≤ span) × (2 * rows ≤ length least.old) }
    ensures { least.new
        ≡ filled_from rows (same_column column) rows (filled_from 0 (column_metric base axes.now) rows least.old) }
{
    let mut work = |rows| fill_rows(rows, base, column, axes, least);
    sized::<8, 4, _, _>(rows, &mut work)
}

// The keys of a node's children, by its partial metric; behind them the smallest of each row, and behind these its column. A row's keys differ
// by their imaginary parts alone, so the smallest one stands in the same column of each, and differs from another row's by the real part alone.
pub fn fill(q: usize, partial: u64, axes: &[u64; AXES], keys: &mut [u64])
    requires { (q ≤ most_width) × (partial < above) × AllSmall axes.now × (key_count q ≤ length keys.old) }
    ensures { keys.new ≡ keys_in q (partial * cost_room) axes.now keys.old }
{
    let shared = partial * COST_ROOM;
    metric::fill_children(q, shared, axes, keys);
    let grid = Grid::of(q);
    let column = least_first(&axes[AXES / 2..AXES / 2 + grid.columns]);
    let base = shared + axes[AXES / 2 + column];
    fill_least(
        grid.rows,
        base,
        column as u64,
        axes,
        &mut keys[grid.children..],
    );
}

// The row of the first of the smallest keys, and that key: of the rows' smallest the first one of the smallest.
pub fn least_row(q: usize, keys: &[u64]) -> Row
    requires { (q ≤ most_width) × RowLeast q keys.now }
    ensures { LeastRow q keys.now result.row result.key }
{
    let grid = Grid::of(q);
    let least = &keys[grid.children..grid.children + grid.rows];
    let row = least_first(least);
    Row {
        row,
        key: least[row],
    }
}

// Takes the next child, the first of the smallest keys, in its row, where its column is known: its key is then above every other, and its
// row has another smallest one, which is looked for once, for its key and its column.
pub fn take(q: usize, row: usize, keys: &mut [u64]) -> usize
    requires { (q ≤ most_width) × RowLeast q keys.old × (row ≡ least_first (drop (2 ^ q) keys.old) (row_count q)) }
    ensures { (result ≡ least_first keys.old (2 ^ q)) × (keys.new ≡ keys_after q keys.old) }
{
    let grid = Grid::of(q);
    let least = grid.children + row;
    let kept = grid.children + grid.rows + row;
    let start = row * grid.columns;
    let symbol = start + keys[kept] as usize;
    keys[symbol] = TRIED;
    let column = least_first(&keys[start..start + grid.columns]);
    let next = keys[start + column];
    keys[least] = next;
    keys[kept] = column as u64;
    symbol
}
