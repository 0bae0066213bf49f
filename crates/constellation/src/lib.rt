// The constellation: the points of all symbol labels, from constant tables into lent memory, once for a record.
#![tactic(auto)]

mod table;

ghost use Rattle.std.specs.Prelude.{◌≡◌, ◌/◌, ◌%◌, ◌<◌, ◌≤◌, ◌^◌, length};
ghost use Rattle.model.specs.Constellation.{amplitude, bits_of};
ghost use Rattle.model.specs.Block.{most_width, widths, ◌∈◌};
ghost use Rattle.constellation.specs.Points.{places, Axes, Filled};

// How many numbers the points of the widest symbols are: 256 real parts and 256 imaginary ones.
// Not an array of structs: the definitions `point_in` and `Points` read a symbol's parts at the places 2s and 2s + 1 of one list.
pub const PLACES: usize = 512;

// The amplitudes of axes of 0, 1, 2 and 3 bits by rising label, those of w bits from place 2^w on: 0; -1, 1; -3, -1, 3, 1; -7, -5, -1, -3, 7,
// 5, 1, 3. An axis of no bits has the amplitude 0: the imaginary one with Q = 1.
const AXES: [i8; 16] = [0, 0, -1, 1, -3, -1, 3, 1, -7, -5, -1, -3, 7, 5, 1, 3];

// The amplitude of an axis label of up to 3 bits.
fn amplitude(bits: usize, label: usize) -> i8
    requires { (bits ≤ 3) × (label < 2 ^ bits) }
    ensures { result ≡ amplitude (bits_of bits label) }
{
    AXES[(1 << bits) + label]
}

// The upper bits of a symbol's label, which give the real amplitude.
fn real_label(q: usize, symbol: usize) -> usize
    requires { q ≤ most_width }
    ensures { result ≡ symbol / 2 ^ (q / 2) }
{
    symbol >> (q / 2)
}

// The lower bits, which give the imaginary one.
fn imaginary_label(q: usize, symbol: usize) -> usize
    requires { q ≤ most_width }
    ensures { result ≡ symbol % 2 ^ (q / 2) }
{
    symbol % (1 << (q / 2))
}

// The points of symbols of up to 6 bits, from the amplitudes of their two axes.
fn fill_by_axes(q: usize, points: &mut [i8; PLACES])
    requires { q ≤ 6 }
    ensures { Filled q points.old points.new }
{
    for s in 0..1 << q {
        points[2 * s] = amplitude(q - q / 2, real_label(q, s));
        points[2 * s + 1] = amplitude(q / 2, imaginary_label(q, s));
    }
}

// The 256 points of symbols of 8 bits, their table.
fn copy_points(points: &mut [i8; PLACES])
    ensures { Filled most_width points.old points.new }
{
    *points = table::POINTS;
}

// The points of all symbols of q bits by rising label, real and imaginary part; what stands behind them stays.
pub fn fill(q: usize, points: &mut [i8; PLACES])
    requires { q ∈ widths }
    ensures { Filled q points.old points.new }
{
    if q == 8 {
        return copy_points(points);
    }
    fill_by_axes(q, points)
}
