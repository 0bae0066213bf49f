// The kinds of number in a record with the range of each, and the refusals with their numbers: document 01, "Where a record is turned back",
// with document 02's 15 to 17. The rule for calls that fill lent memory is among the definitions.
#![tactic(auto)]

ghost use Rattle.std.specs.Prelude.{◌≡◌, ◌<◌, ◌^◌, pos, neg_ℤ, IfOk};
ghost use Rattle.refusals.specs.Filling.{returned_as};
ghost use Rattle.refusals.specs.Table.{refusal_number, refusal_of, between, one_of, crowded, allowed, is_folded, unreadable};
ghost use Rattle.model.specs.Block.{widths};

use wire::NumberError;

// Why a record is turned back, with the documents' number for each.
#[derive(Clone, Copy, Debug, PartialEq, Eq)]
pub enum Refusal {
    Opening = 1,
    Ends = 2,
    Malformed = 3,
    Streams = 4,
    Width = 5,
    Vectors = 6,
    Clip = 7,
    Share = 8,
    Diagonal = 9,
    Entry = 10,
    Received = 11,
    Prior = 12,
    Trailing = 13,
    Buffer = 14,
    // four streams of 256 points
    Crowded = 15,
    // W
    Weak = 16,
    // an owner number
    Owner = 17,
}

// Why no number can be read, as the refusal of any number.
impl From<NumberError> for Refusal {
    ghost from_gives = { λ e refusal. refusal ≡ unreadable e };

    fn from(e: NumberError) -> Refusal {
        match e {
            NumberError::Short => Refusal::Ends,
            NumberError::Malformed => Refusal::Malformed,
        }
    }
}

// The kinds of number in a record, each with a range of its own; the symbol width's depends on M, W's ends at C, the share's begins at M.
#[derive(Clone, Copy)]
pub enum Kind {
    StreamCount,
    SymbolWidth(i32),
    VectorCount,
    ClipLevel,
    WeakLevel(i32),
    NodeShare(i32),
    OwnerNumber,
    DiagonalEntry,
    RightPart,
    ReceivedPart,
    BitPrior,
}

fn between(z: i32, low: i32, high: i32) -> bool
    ensures { result ≡ between low high z }
{
    (low..=high).contains(&z)
}

fn is_width(z: i32) -> bool
    ensures { result ≡ one_of widths z }
{
    matches!(z, 1 | 2 | 4 | 6 | 8)
}

// Are four streams of 256 points asked for?
fn crowded(m: i32, z: i32) -> bool
    ensures { result ≡ crowded m z }
{
    z == 8 && m == 4
}

// Is Q one of the widths, and one that goes with M?
fn is_sized(m: i32, z: i32) -> bool
    ensures { result ≡ allowed (Kind.SymbolWidth m) z }
{
    is_width(z) && !crowded(m, z)
}

// Is a number in the range of its kind?
pub fn allowed(kind: Kind, z: i32) -> bool
    ensures { result ≡ allowed kind z }
{
    match kind {
        Kind::StreamCount => between(z, 1, 4),
        Kind::SymbolWidth(m) => is_sized(m, z),
        Kind::VectorCount => between(z, 1, 64),
        Kind::ClipLevel => between(z, 0, 16777215),
        Kind::WeakLevel(c) => between(z, 0, c),
        Kind::NodeShare(m) => between(z, m, 17043520),
        Kind::OwnerNumber => between(z, 1, 4),
        Kind::DiagonalEntry => between(z, 1, 2047),
        Kind::RightPart => between(z, -2047, 2047),
        Kind::ReceivedPart => between(z, -131071, 131071),
        Kind::BitPrior => between(z, -1048575, 1048575),
    }
}

pub fn is_folded(kind: Kind) -> bool
    ensures { result ≡ is_folded kind }
{
    matches!(kind, Kind::RightPart | Kind::ReceivedPart | Kind::BitPrior)
}

// The refusal of a number that is out of the range of its kind. A Q is checked for its width first.
pub fn refusal_of(kind: Kind, z: i32) -> Refusal
    ensures { result ≡ refusal_of kind z }
{
    match kind {
        Kind::StreamCount => Refusal::Streams,
        Kind::SymbolWidth(_) if is_width(z) => Refusal::Crowded,
        Kind::SymbolWidth(_) => Refusal::Width,
        Kind::VectorCount => Refusal::Vectors,
        Kind::ClipLevel => Refusal::Clip,
        Kind::WeakLevel(_) => Refusal::Weak,
        Kind::NodeShare(_) => Refusal::Share,
        Kind::OwnerNumber => Refusal::Owner,
        Kind::DiagonalEntry => Refusal::Diagonal,
        Kind::RightPart => Refusal::Entry,
        Kind::ReceivedPart => Refusal::Received,
        Kind::BitPrior => Refusal::Prior,
    }
}

// The number that a refusal is reported by.
pub fn refusal_number(refusal: Refusal) -> u32
    ensures { result ≡ refusal_number refusal }
{
    refusal as u32
}

// Minus a refusal's number, as a call returns it: for C an answer is one number.
pub fn refused(refusal: Refusal) -> i64
    ensures { result ≡ neg_ℤ (pos (refusal_number refusal)) }
{
    -i64::from(refusal_number(refusal))
}

// What a call comes to, as it returns it: how many entries it wrote, or minus the number of its refusal.
pub fn returned(outcome: Result<usize, Refusal>) -> i64
    requires { IfOk outcome (λ n. n < 2 ^ 63) }
    ensures { result ≡ returned_as outcome }
{
    match outcome {
        Ok(count) => count as i64,
        Err(refusal) => refused(refusal),
    }
}
