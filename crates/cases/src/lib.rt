// What the programs read from standard input: as much of it as a buffer has room for, and of the programs that run test records these
// records, one after another, each behind its length in two bytes, the low one first.
#![tactic(auto)]

ghost use Rattle.std.specs.Prelude.{◌≡◌, ◌-◌, ◌<◌, length, take, IfOk};
ghost use Rattle.std.specs.Io.KnownBytes.{Consumes, IsAtEnd};
ghost use Rattle.std.specs.Iterator.{at_most};
ghost use Rattle.io.specs.Counts.{IsPrefixLen};
ghost use Rattle.cases.specs.Cases.{case_at, Within, GivesCase};
ghost use Rattle.cases.specs.Filled.{filled};

use std::io;
use std::io::Read;

// The input ends within a test record.
#[derive(Clone, Copy)]
pub struct CutOff;

// The test records of an input, in their order. Where it ends within one, that is said, and nothing comes behind.
#[derive(Drop)]
pub struct Records<'a> {
    input: &'a [u8],
    at: usize,
}

impl<'a> Records<'a> {
    pub fn new(input: &'a [u8]) -> Self
        ensures { (result.input.now ≡ input.now) × (result.at ≡ 0) }
    {
        Records { input, at: 0 }
    }
}

impl<'a> Iterator for Records<'a> {
    type Item = Result<&'a [u8], CutOff>;

    ghost next_gives = { λ s r t. GivesCase s.input.now s.at r t.input.now t.at };

    ghost remaining = { λ s. at_most (length s.input.now - s.at) };

    fn next(&mut self) -> Option<Result<&'a [u8], CutOff>> {
        if self.input.len() <= self.at {
            return None;
        }
        let Some(Case { start, end }) = case_at(self.input, self.at) else {
            self.at = self.input.len();
            return Some(Err(CutOff));
        };
        self.at = end;
        Some(Ok(&self.input[start..end]))
    }
}

// Where a test record lies in the input: from one place up to another. A `Range` would be no Copy.
#[derive(Clone, Copy)]
pub struct Case {
    pub start: usize,
    pub end: usize,
}

// Where the test record lies whose length stands at a place of the input; none where the input ends before.
pub fn case_at(input: &[u8], at: usize) -> Option<Case>
    requires { at < length input.now }
    ensures { (result ≡ case_at input.now at) × Within at (length input.now) result }
{
    let (length, behind) = input[at..].split_first_chunk()?;
    let length = usize::from(u16::from_le_bytes(*length));
    if behind.len() < length {
        return None;
    }
    let start = at + 2;
    let end = start + length;
    Some(Case { start, end })
}

// A read failed, and how many bytes were read before it.
#[derive(Debug, Drop)]
pub struct Stopped {
    pub count: usize,
    pub error: io::Error,
}

// Reads until the buffer is full or the input ends; how many bytes of the input then stand at its start. Those that were read before a read
// failed stand there, too.
// Not `read_exact`: its contract says nothing of what was read where it fails.
#[tactic(auto, using(crate::proofs::Reading::read_more))]
pub fn try_read_full<R: Read>(input: &mut R, buffer: &mut [u8]) -> Result<usize, Stopped>
    ensures in_bounds { IsPrefixLen (filled result) buffer.new }
    ensures bytes { Consumes (R.remaining input.old) (R.remaining input.new) (take (filled result) buffer.new) }
    ensures end { IfOk result (λ n. n < length buffer.new → IsAtEnd (R.remaining input.new)) }
{
    let mut n = 0;
    while n < buffer.len() {
        match input.read(&mut buffer[n..]) {
            Ok(0) => return Ok(n),
            Ok(more) => n += more,
            Err(error) => return Err(Stopped { count: n, error }),
        }
    }
    Ok(n)
}

// The same, where a read that fails ends the input.
pub fn read_full<R: Read>(input: &mut R, buffer: &mut [u8]) -> usize
    ensures in_bounds { IsPrefixLen result buffer.new }
    ensures bytes { Consumes (R.remaining input.old) (R.remaining input.new) (take result buffer.new) }
{
    try_read_full(input, buffer).unwrap_or_else(|stopped| stopped.count)
}
