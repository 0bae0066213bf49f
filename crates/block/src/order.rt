// Which kinds of number a part of the record has, how many and in which order: document 01, "The record".
ghost use Rattle.std.specs.Prelude.{◌≡◌, ◌+◌, ◌*◌, ◌<◌, length, get_or};
ghost use Rattle.block.specs.Reading.{no_run, Small, runs_of, vector_runs};

use super::{Part, Run};
use refusals::Kind;

// The i-th run of Q, N and C.
fn size_run(m: i32, i: usize) -> Run
    requires { i < 3 }
    ensures { result ≡ get_or (runs_of (Part.Sizes m)) i no_run }
{
    match i {
        0 => Run {
            kind: Kind::SymbolWidth(m),
            count: 1,
        },
        1 => Run {
            kind: Kind::VectorCount,
            count: 1,
        },
        _ => Run {
            kind: Kind::ClipLevel,
            count: 1,
        },
    }
}

// The i-th run of n numbers W, which may be none, and D.
fn limit_run(n: usize, m: i32, c: i32, i: usize) -> Run
    requires { i < 2 }
    ensures { result ≡ get_or (runs_of (Part.Limits n m c)) i no_run }
{
    match i {
        0 => Run {
            kind: Kind::WeakLevel(c),
            count: n,
        },
        _ => Run {
            kind: Kind::NodeShare(m),
            count: 1,
        },
    }
}

// The i-th run of a vector behind its owner: two for each row of R, then y, then the priors.
fn vector_run(m: usize, q: usize, i: usize) -> Run
    requires { Small (Part.Vector 0 m q) × (i < 2 * m + 2) }
    ensures { result ≡ get_or (vector_runs m q) i no_run }
{
    if i < 2 * m {
        if i % 2 == 0 {
            return Run {
                kind: Kind::DiagonalEntry,
                count: 1,
            };
        }
        return Run {
            kind: Kind::RightPart,
            count: 2 * (m - 1 - i / 2),
        };
    }
    if i == 2 * m {
        return Run {
            kind: Kind::ReceivedPart,
            count: 2 * m,
        };
    }
    Run {
        kind: Kind::BitPrior,
        count: m * q,
    }
}

// The i-th run of n owner numbers, which may be none, and a vector.
fn owned_run(n: usize, m: usize, q: usize, i: usize) -> Run
    requires { Small (Part.Vector n m q) × (i < 2 * m + 3) }
    ensures { result ≡ get_or (runs_of (Part.Vector n m q)) i no_run }
{
    if i == 0 {
        return Run {
            kind: Kind::OwnerNumber,
            count: n,
        };
    }
    vector_run(m, q, i - 1)
}

impl Part {
    // How many runs it has.
    pub fn run_count(self) -> usize
        requires { Small self }
        ensures { result ≡ length (runs_of self) }
    {
        match self {
            Part::First => 1,
            Part::Sizes(_) => 3,
            Part::Limits(_, _, _) => 2,
            Part::Vector(_, m, _) => 2 * m + 3,
        }
    }

    // The i-th of them.
    pub fn run_at(self, i: usize) -> Run
        requires { Small self × (i < length (runs_of self)) }
        ensures { result ≡ get_or (runs_of self) i no_run }
    {
        match self {
            Part::First => Run {
                kind: Kind::StreamCount,
                count: 1,
            },
            Part::Sizes(m) => size_run(m, i),
            Part::Limits(n, m, c) => limit_run(n, m, c, i),
            Part::Vector(n, m, q) => owned_run(n, m, q, i),
        }
    }
}
