// Runs the record reader on the test records of standard input (crate cases). For each a line is written: `refused` and the refusal's
// number, or `accepted`, how many whole numbers the record has and their checksum. What the lines must be comes from a second reader, in
// Rust.
#![tactic(auto)]

ghost use Rattle.std.specs.Prelude.{◌≡◌, ◌<◌, ◌≤◌, min, nat_abs, length, get_or};
ghost use Rattle.block.specs.Reading.{most_numbers};
ghost use Rattle.reader_cases.specs.Numbers.{header_count, owner_count, count_of, moved, mixed, checksum_of};

use block::MOST_NUMBERS;
use cases::{CutOff, Records};

// M, Q or N of an accepted record. It is at most what documents 01 and 02 allow; that it is no more is seen to here too, so that this
// program rests on nothing that is proved of the reader.
fn size(z: i32, most: usize) -> usize
    ensures { result ≡ min (nat_abs z) most }
{
    (z.unsigned_abs() as usize).min(most)
}

// The last byte of a record's opening, and 0 where there is none.
fn last_byte(record: &[u8]) -> u8
    ensures { result ≡ get_or «record».now 3 0 }
{
    match record {
        [_, _, _, last, ..] => *last,
        _ => 0,
    }
}

// How many whole numbers stand before the first vector: one more, W, with an opening that ends in 32 or 33.
fn header(last: u8) -> usize
    ensures { (result ≡ header_count last) × (result ≤ 6) }
{
    match last {
        0x32 | 0x33 => 6,
        _ => 5,
    }
}

// How many stand before each vector: its owner's, with the opening that ends in 33.
fn owners(last: u8) -> usize
    ensures { (result ≡ owner_count last) × (result ≤ 1) }
{
    usize::from(last == 0x33)
}

// How many whole numbers a record has, by these and its M, Q and N. A vector's priors are at most 24: Q = 8 is with up to three streams.
#[tactic(auto, using(crate::proofs::Numbers::sums))]
fn count(header: usize, own: usize, numbers: &[i32; MOST_NUMBERS]) -> usize
    requires { (header ≤ 6) × (own ≤ 1) }
    ensures { (result ≡ count_of header own numbers.now) × (result ≤ most_numbers) }
{
    let m = size(numbers[0], 4);
    let q = size(numbers[1], 8);
    let n = size(numbers[2], 64);
    let priors = (m * q).min(24);
    header + n * (own + (m * m + 2 * m + priors))
}

// A whole number moved up by 2 to the 31, so that it is not negative.
fn move_up(z: i32) -> u64
    ensures { (result ≡ moved z) × (result < 4294967296) }
{
    u64::from(z.abs_diff(i32::MIN))
}

// The checksum with one whole number more, modulo a prime: a power of 2 would hide an error in the high bits.
fn mix(sum: u64, z: i32) -> u64
    requires { sum < 4294967291 }
    ensures { (result ≡ mixed sum z) × (result < 4294967291) }
{
    (sum * 1000003 + move_up(z)) % 4294967291
}

// The checksum of whole numbers.
fn checksum(numbers: &[i32]) -> u64
    ensures { result ≡ checksum_of numbers.now (length numbers.now) }
{
    let mut sum = 0;
    for z in numbers {
        sum = mix(sum, *z);
    }
    sum
}

// Reads one test record and writes its line. A line that can not be written is passed over.
fn run(rt: &impl Print, record: &[u8], numbers: &mut [i32; MOST_NUMBERS])
    ensures { length numbers.new ≡ most_numbers }
{
    let _ = match reader::read_whole(record, numbers) {
        Ok(_) => {
            let last = last_byte(record);
            let n = count(header(last), owners(last), numbers);
            let sum = checksum(&numbers[..n]);
            println!(rt; "accepted {n} {sum}")
        }
        Err(refusal) => {
            let number = refusals::refusal_number(refusal);
            println!(rt; "refused {number}")
        }
    };
}

// Reads each test record of the input. The numbers of one stay in the list for the next, which must not see them.
fn run_all(rt: &impl Print, input: &[u8]) {
    let mut numbers = [0i32; MOST_NUMBERS];
    for record in Records::new(input) {
        match record {
            Ok(record) => run(rt, record, &mut numbers),
            Err(CutOff) => {
                let _ = println!(rt; "cut off");
            }
        }
    }
}

// Where a read fails, the records that were read before are run.
fn main(rt: HostRuntime) {
    let mut input = [0u8; 262144];
    let n = cases::read_full(&mut rt.stdin(), &mut input);
    run_all(&rt, &input[..n]);
}
