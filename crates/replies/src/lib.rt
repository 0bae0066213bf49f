// The reply's bytes (document 01, "The record"): what is written of a block's sizes and of a vector's answer, and the room that is asked for.
#![tactic(auto)]

ghost use Rattle.std.specs.Prelude.{◌≡◌, [], ◌∷◌, ◌++◌, map, ◌+◌, ◌*◌, ◌<◌, ◌≤◌, length};
ghost use Rattle.wire.specs.Writer.{Writes};
ghost use Rattle.wire.specs.Folding.{folded};
ghost use Rattle.model.specs.Block.{most_streams, most_width, most_vectors};
ghost use Rattle.replies.specs.Reply.{reply_opening, mark_of, written};
ghost use Rattle.replies.specs.Asked.{SoftAsked, FoundAsked};

use wire::Writer;

const REPLY_OPENING: [u8; 4] = [0x43, 0x42, 0x53, 0x31];

// The opening and M, Q, N, each in one group.
#[tactic(auto, using(crate::proofs::Steps::one_byte))]
pub fn write_head(reply: &mut Writer<'_>, m: usize, q: usize, n: usize)
    requires { (reply.old.at + 7 ≤ length reply.old.buffer.now) × (m < 128) × (q < 128) × (n < 128) }
    ensures { (reply.new.at ≡ reply.old.at + 7) × Writes reply.old (reply_opening ++ written (m ∷ q ∷ n ∷ [])) reply.new }
{
    reply.opening(REPLY_OPENING);
    reply.number(m as u32);
    reply.number(q as u32);
    reply.number(n as u32);
}

// Soft values, folded. Not one function with that of lines, which puts other bytes for a value: over a closure it would be as long as both.
pub fn write_soft(reply: &mut Writer<'_>, soft: &[i32])
    requires { SoftAsked reply.old.at soft.now (length reply.old.buffer.now) }
    ensures { Writes reply.old (written (map folded soft.now)) reply.new }
{
    for value in soft {
        reply.number(wire::fold(*value));
    }
}

// What a search found, but for the soft values: the mark in one group, nodes walked, label.
#[tactic(auto, using(crate::proofs::Steps::one_byte, crate::proofs::Steps::four_bytes, crate::proofs::Replies::mark_small))]
pub fn write_found(reply: &mut Writer<'_>, stopped: bool, count: u32, label: u32)
    requires { FoundAsked reply.old.at count label (length reply.old.buffer.now) }
    ensures { (reply.new.at ≤ reply.old.at + 9)
        × Writes reply.old (written (mark_of stopped ∷ count ∷ label ∷ [])) reply.new }
{
    reply.number(u32::from(stopped));
    reply.number(count);
    reply.number(label);
}

// The buffer a reply asks for.
pub fn room(m: usize, q: usize, n: usize) -> usize
    requires { (m ≤ most_streams) × (q ≤ most_width) × (n ≤ most_vectors) }
    ensures { result ≡ 7 + n * (9 + 4 * m * q) }
{
    7 + n * (9 + 4 * m * q)
}
