// How near what remains of y comes, on one axis, to an amplitude of document 01 ("Streams and labels") times the diagonal entry: by folds alone,
// with no amplitude looked up.
ghost use Rattle.std.specs.Prelude.{◌≡◌, ◌<◌, ◌≤◌, nat_abs};
ghost use Rattle.model.specs.Block.{most_entry};
ghost use Rattle.metric.specs.Parts.{axis_width, nearest_of, remainder_bound};

use super::sized;

// The distance from e to the nearest of the amplitudes of an axis of w bits, times the diagonal: the axis is folded at 0, and then at the
// middle of what is left.
fn folded(e: i64, diagonal: u64, w: usize) -> u64
    requires { (nat_abs e < remainder_bound) × (diagonal ≤ most_entry) × (w ≤ axis_width) }
    ensures { (result ≡ nearest_of diagonal w (nat_abs e)) × (result < remainder_bound) }
{
    let mut distance = e.unsigned_abs();
    for k in (0..w).rev() {
        distance = distance.abs_diff(diagonal << k);
    }
    distance
}

// The same, with the three bits of an axis of 64-QAM made known to the compiler.
pub fn nearest(e: i64, diagonal: u64, w: usize) -> u64
    requires { (nat_abs e < remainder_bound) × (diagonal ≤ most_entry) × (w ≤ axis_width) }
    ensures { (result ≡ nearest_of diagonal w (nat_abs e)) × (result < remainder_bound) }
{
    sized::<3, 3, _, _>(w, &mut |w| folded(e, diagonal, w))
}
