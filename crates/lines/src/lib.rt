// The lines of a listing as text: a vector's, the first and the last one.
#![tactic(auto)]

ghost use Rattle.std.specs.Prelude.{◌≡◌, ◌++◌, ◌+◌, ◌*◌, ◌^◌, ◌<◌, ◌≤◌, length};
ghost use Rattle.wire.specs.Writer.{Writes};
ghost use Rattle.model.specs.Block.{most_bits};
ghost use Rattle.lines.specs.Against.{against};
ghost use Rattle.lines.specs.Text.{line_end, blank, streams_word, bits_word, vectors_word, state_word};
ghost use Rattle.lines.specs.Text.{decimal_of, field, value_text, soft_text, head_line, vector_line, most_line};
ghost use Rattle.lines.specs.Asked.{told, ValuesAsked, LineAsked};

use search::Found;
use wire::Writer;

// How many bits of the label go against the sign of their prior: the ones of the label under the priors' sign and non-zero masks.
fn against(priors: &[i32], label: u32) -> u32
    requires { length priors.now ≤ 32 }
    ensures { result ≡ against priors.now label }
{
    let mut negative: u32 = 0;
    let mut nonzero: u32 = 0;
    for prior in priors {
        negative = (negative << 1) | u32::from(*prior < 0);
        nonzero = (nonzero << 1) | u32::from(*prior != 0);
    }
    ((label ^ negative) & nonzero).count_ones()
}

// A number in decimal digits.
fn write_digits(text: &mut Writer<'_>, n: u64)
    requires { text.old.at + length (decimal_of n) ≤ length text.old.buffer.now }
    ensures { Writes text.old (decimal_of n) text.new }
{
    let mut digits = [0u8; 20];
    let k = io::decimal(n, &mut digits);
    text.bytes(&digits[..k]);
}

// A number of at most ten digits.
fn write_natural(text: &mut Writer<'_>, n: u32)
    requires { text.old.at + 10 ≤ length text.old.buffer.now }
    ensures { (text.new.at ≤ text.old.at + 10) × Writes text.old (decimal_of n) text.new }
{
    write_digits(text, u64::from(n));
}

// A word and such a number.
fn write_field(text: &mut Writer<'_>, word: &[u8], n: u32)
    requires { text.old.at + length word.now + 10 ≤ length text.old.buffer.now }
    ensures { (text.new.at ≤ text.old.at + length word.now + 10)
        × Writes text.old (field word.now n) text.new }
{
    text.bytes(word);
    write_natural(text, n);
}

// A squared distance, of at most twelve digits, behind a blank.
fn write_distance(text: &mut Writer<'_>, distance: u64)
    requires { (distance < 2 ^ 39) × (text.old.at + 13 ≤ length text.old.buffer.now) }
    ensures { (text.new.at ≤ text.old.at + 13) × Writes text.old (field blank distance) text.new }
{
    text.byte(b' ');
    write_digits(text, distance);
}

// A soft value behind a blank.
fn write_value(text: &mut Writer<'_>, value: i32)
    requires { text.old.at + 12 ≤ length text.old.buffer.now }
    ensures { (text.new.at ≤ text.old.at + 12) × Writes text.old (value_text value) text.new }
{
    let size = value.unsigned_abs();
    if value < 0 {
        write_field(text, b" -", size);
    } else {
        write_field(text, b" ", size);
    }
}

// Whether the search was stopped, and the nodes walked.
fn write_state(text: &mut Writer<'_>, stopped: bool, count: u32)
    requires { text.old.at + 20 ≤ length text.old.buffer.now }
    ensures { (text.new.at ≤ text.old.at + 20)
        × Writes text.old (field (state_word stopped) count) text.new }
{
    if stopped {
        write_field(text, b" stopped ", count);
    } else {
        write_field(text, b" complete ", count);
    }
}

// Soft values.
fn write_soft(text: &mut Writer<'_>, soft: &[i32])
    requires { (length soft.now ≤ most_bits) × (text.old.at + 12 * length soft.now ≤ length text.old.buffer.now) }
    ensures { (text.new.at ≤ text.old.at + 12 * length soft.now) × Writes text.old (soft_text soft.now) text.new }
{
    for value in soft {
        write_value(text, *value);
    }
}

// A line's first part: the number, the state, nodes, label, and how many of its bits go against their priors.
fn write_counts(text: &mut Writer<'_>, number: u32, found: Found, bits: u32)
    requires { text.old.at + 52 ≤ length text.old.buffer.now }
    ensures { (text.new.at ≤ text.old.at + 52)
        × Writes text.old
        (decimal_of number ++ field (state_word found.stopped) found.count ++ field blank found.label ++ field blank bits)
        text.new }
{
    write_natural(text, number);
    write_state(text, found.stopped, found.count);
    write_field(text, b" ", found.label);
    write_field(text, b" ", bits);
}

// Its last part: the soft values, the squared distance, and the line end.
fn write_values(text: &mut Writer<'_>, soft: &[i32], distance: u64)
    requires { ValuesAsked text.old.at (length soft.now) distance (length text.old.buffer.now) }
    ensures { (text.new.at ≤ text.old.at + 12 * length soft.now + 14)
        × Writes text.old (soft_text soft.now ++ field blank distance ++ line_end) text.new }
{
    write_soft(text, soft);
    write_distance(text, distance);
    text.byte(b'\n');
}

// The line of a vector with a number, from what the search found of it, its soft values and its priors.
pub fn write_line(text: &mut Writer<'_>, number: u32, found: Found, soft: &[i32], priors: &[i32])
    requires { LineAsked text.old.at (length soft.now) (length priors.now) found.distance (length text.old.buffer.now) }
    ensures { (text.new.at ≤ text.old.at + most_line)
        × Writes text.old (vector_line number (told found soft.now) priors.now found.distance) text.new }
{
    write_counts(text, number, found, against(priors, found.label));
    write_values(text, soft, found.distance);
}

// The first line's first part: M, Q and N.
fn write_sizes(text: &mut Writer<'_>, m: u32, q: u32, n: u32)
    requires { text.old.at + 53 ≤ length text.old.buffer.now }
    ensures { (text.new.at ≤ text.old.at + 53)
        × Writes text.old (field streams_word m ++ field bits_word q ++ field vectors_word n) text.new }
{
    write_field(text, b"streams ", m);
    write_field(text, b" bits ", q);
    write_field(text, b" vectors ", n);
}

// The first line: M, Q, N, C and D, and not detector's `Header`, which has more than is printed.
pub fn write_head(text: &mut Writer<'_>, m: u32, q: u32, n: u32, clip: u32, share: u32)
    requires { text.old.at + 87 ≤ length text.old.buffer.now }
    ensures { (text.new.at ≤ text.old.at + 87) × Writes text.old (head_line m q n clip share) text.new }
{
    write_sizes(text, m, q, n);
    write_field(text, b" clip ", clip);
    write_field(text, b" share ", share);
    text.byte(b'\n');
}

// A last line, or the only one: a word and a number.
pub fn write_last(text: &mut Writer<'_>, word: &[u8], n: u32)
    requires { text.old.at + length word.now + 11 ≤ length text.old.buffer.now }
    ensures { (text.new.at ≤ text.old.at + length word.now + 11)
        × Writes text.old (field word.now n ++ line_end) text.new }
{
    write_field(text, word, n);
    text.byte(b'\n');
}
