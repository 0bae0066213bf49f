// The small types of a tree search, passed by value between its crates: what is asked, a node, what is kept, and the number above every
// metric.
#![tactic(auto)]

ghost use Rattle.std.specs.Prelude.{◌≡◌, ◌<◌, ◌^◌, nat_abs, ◌+ℤ◌, ◌-ℤ◌, ◌*ℤ◌};

use std::ops::{Mul, Sub};

// What a search is asked: a vector's M, Q and C, and its allowance (document 01's term).
#[derive(Clone, Copy)]
pub struct Task {
    pub streams: usize,
    pub width: usize,
    pub clip: u32,
    pub allowance: u32,
}

// A node: how many streams are not chosen yet, its partial metric with its two parts, the squared distance and the prior cost of the streams
// that are chosen, the widest limit of those of its bits that are opposite to the best label's, and the bits that are chosen, as a number.
// With no stream left to choose it is a leaf, and these are a label and its metric.
#[derive(Clone, Copy)]
pub struct Node {
    pub level: usize,
    pub partial: u64,
    pub distance: u64,
    pub cost: u64,
    pub chosen: u64,
    pub bits: u32,
}

// What a search has kept, but for the minima: the best label's metric with its two parts, nodes counted, that label (document 01's m, the MAP
// hypothesis of the leaves walked), and `stopped`, document 01's mark, which a reply has beside every label: a value of its own, and so no Option
// round another.
#[derive(Clone, Copy)]
pub struct Kept {
    pub best: u64,
    pub distance: u64,
    pub cost: u64,
    pub count: u32,
    pub label: u32,
    pub stopped: bool,
}

// A complex number whose parts are whole numbers.
#[derive(Clone, Copy)]
pub struct Complex {
    pub re: i64,
    pub im: i64,
}

impl Mul for Complex {
    type Output = Complex;

    // With parts below 2 to the 31 neither a product nor a sum of two wraps.
    ghost can_mul = { λ a b. (nat_abs a.re < 2 ^ 31) × (nat_abs a.im < 2 ^ 31) × (nat_abs b.re < 2 ^ 31) × (nat_abs b.im < 2 ^ 31) };

    ghost mul_gives = { λ a b r. (r.re ≡ a.re *ℤ b.re -ℤ a.im *ℤ b.im) × (r.im ≡ a.re *ℤ b.im +ℤ a.im *ℤ b.re) };

    fn mul(self, other: Complex) -> Complex {
        let re = self.re * other.re - self.im * other.im;
        let im = self.re * other.im + self.im * other.re;
        Complex { re, im }
    }
}

impl Sub for Complex {
    type Output = Complex;

    // With parts below 2 to the 62 no difference wraps.
    ghost can_sub = { λ a b. (nat_abs a.re < 2 ^ 62) × (nat_abs a.im < 2 ^ 62) × (nat_abs b.re < 2 ^ 62) × (nat_abs b.im < 2 ^ 62) };

    ghost sub_gives = { λ a b r. (r.re ≡ a.re -ℤ b.re) × (r.im ≡ a.im -ℤ b.im) };

    fn sub(self, other: Complex) -> Complex {
        Complex {
            re: self.re - other.re,
            im: self.im - other.im,
        }
    }
}

// Above every metric, which document 01 bounds by 2 to the 39: an infinite least metric.
pub const ABOVE: u64 = 549755813888;

// 2 to the 23, above the prior cost of every symbol. A child's key is its partial metric times this, plus its symbol's prior cost: siblings
// share the rest of their prior cost, so that one comparison of keys is document 02's order of siblings but for the symbol label.
pub const COST_ROOM: u64 = 8388608;

// The key of a child that was tried.
pub const TRIED: u64 = ABOVE * COST_ROOM;
