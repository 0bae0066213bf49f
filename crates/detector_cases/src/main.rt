// Runs the detector's call on the test cases of standard input, from bytes to bytes. A test case is two items as crate cases
// frames them: the record, then two bytes, the low one first, with the length of the reply buffer, at most 128. The buffer is filled with
// AA before each call. For each a line is written: the returned number, and every byte of the lent buffer afterwards in hexadecimal.
//
// The records are document 01's readings and edges, and what their lines must be is in its words. In its order, the buffers exactly long
// enough: M = 1 with y = 2 and C = 5, 8, 9; y = 0; y = 2 with prior 10, and that with D = 1. M = 2 with D = 5, D = 4, C = 3, C = 0.
// Then the edges: D = 1, D = 2, C = 16,777,216, buffers of 23, 24 and 30 bytes. The listing's record with 41 and 40 bytes. An empty
// record; the listing's with a byte behind it, that with no buffer, and cut after 20 bytes; Q = 3, M = 5, N = 0. The first one again.
// Then document 02's opening with W: M = 2 with C = 10, W = 7 and D = 4, 5; M = 1 with y = 2, C = 5, W = 0, and with prior 10, W = 3, D = 1;
// W = C + 1; C and W above range; W in needless groups; and an opening that is none. Then its opening with owners: M = 1 of owner 4, with 20
// and 19 bytes; owner 5; none; D below M; owner 4 in needless groups, 128 in two; owner 0 before a diagonal of 0. M = 2 of owners 1, 2, 1, 2
// and 1, 1, 2 with D = 3, of 1, 2, 2, 1 with D = 4, and with W = 7 of 1, 3, 1 and 1, 4, 1, where owner 4's vector is another.
#![tactic(auto)]

ghost use Rattle.std.specs.Prelude.{◌≡◌, ◌<◌};
ghost use Rattle.detector_cases.specs.Bench.{hex_digit, all_fill, two_bytes};

use cases::{CutOff, Records};

// What the buffer is filled with.
const FILL: u8 = 0xAA;

// A digit of base sixteen as text.
fn digit(d: u8) -> u8
    requires { d < 16 }
    ensures { result ≡ hex_digit d }
{
    if d < 10 { b'0' + d } else { b'A' + (d - 10) }
}

// Each byte in two digits; what can not be written is passed over, here and below. Not by `{:02X}`: where many bytes are printed, a formatter
// for each was most of the work.
fn print_bytes(rt: &impl Print, bytes: &[u8]) {
    for b in bytes {
        let text = [digit(b / 16), digit(b % 16)];
        let _ = rt.write_all(&text);
    }
}

// Is every byte the one that the buffer is filled with?
fn untouched(bytes: &[u8]) -> bool
    ensures { result ≡ all_fill bytes.now }
{
    bytes.iter().all(|b| *b == FILL)
}

// Runs one test case and writes its line, and one more if a byte behind the first n, which are lent as the buffer, was altered.
fn run(rt: &impl Print, record: &[u8], n: usize) {
    let mut array = [FILL; 128];
    if array.len() < n {
        let _ = println!(rt; "too long");
        return;
    }
    let returned = detector::geckoneedle_detect(record, &mut array[..n]);
    let _ = print!(rt; "{returned}");
    let _ = print!(rt; " ");
    print_bytes(rt, &array[..n]);
    let _ = println!(rt; "");
    if !untouched(&array[n..]) {
        let _ = println!(rt; "altered beyond the buffer");
    }
}

// The number in the second item of a test case, if that has two bytes, the low one first; any other is bad framing.
fn room(item: &[u8]) -> Result<usize, CutOff>
    ensures { result ≡ two_bytes item.now }
{
    match item {
        [low, high] => Ok(usize::from(u16::from_le_bytes([*low, *high]))),
        _ => Err(CutOff),
    }
}

// Runs each test case of the input, up to where that ends within one. Not a `for`: a turn takes two items.
fn run_all(rt: &impl Print, input: &[u8]) -> Result<(), CutOff> {
    let mut items = Records::new(input);
    while let Some(record) = items.next() {
        let record = record?;
        let second = items.next().ok_or(CutOff)??;
        run(rt, record, room(second)?);
    }
    Ok(())
}

// Where a read fails, the test cases that were read before are run.
fn main(rt: HostRuntime) {
    let mut input = [0u8; 4096];
    let n = cases::read_full(&mut rt.stdin(), &mut input);
    if let Err(CutOff) = run_all(&rt, &input[..n]) {
        let _ = println!(rt; "cut off");
    }
}
