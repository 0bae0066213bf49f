// The listing program: a block record comes in by standard input, its listing goes out by standard
// output. The work is done over any reader and any writer, whose bytes a contract can name. Proved
// is that no more bytes are counted as read than the buffer has, that they are those that the
// reader gave (cases `try_read_full`), and that what a writer took is the listing of these, or a front of
// it where it failed. That standard input and output are such a reader and writer is not proved: the
// program is run, and held to stored outputs.
#![tactic(auto)]

ghost use Rattle.std.specs.Prelude.{◌≡◌, OnOk, OnErr};
ghost use Rattle.std.specs.Io.KnownBytes.{Appends};
ghost use Rattle.lines.specs.Text.{listing_of};
ghost use Rattle.list.specs.Output.{HasTaken};

use std::io;
use std::io::Write;

// How many bytes are read at most: one more than the longest record has, so that a longer input is
// seen to be too long.
const INPUT: usize = block::MOST_BYTES + 1;

// Hands a record's listing to a writer, which has taken a front of it where it fails. The record is
// there for the contract alone.
// Not `write_all`: its contract says nothing of what was taken where it fails.
fn write<W: Write>(output: &mut W, record: &[u8], text: &[u8]) -> io::Result<()>
    requires { text.now ≡ listing_of «record».now }
    ensures ok { OnOk result (Appends (W.contents output.old) (W.contents output.new) (listing_of «record».now)) }
    ensures err { OnErr result (HasTaken (W.contents output.old) (W.contents output.new) (listing_of «record».now)) }
{
    let mut taken = 0;
    while taken < text.len() {
        match output.write(&text[taken..])? {
            0 => return Err(io::Error::from(io::ErrorKind::WriteZero)),
            more => taken += more,
        }
    }
    Ok(())
}

// Prints the listing of a record.
fn print<W: Write>(output: &mut W, record: &[u8]) -> io::Result<()>
    ensures ok { OnOk result (Appends (W.contents output.old) (W.contents output.new) (listing_of «record».now)) }
    ensures err { OnErr result (HasTaken (W.contents output.old) (W.contents output.new) (listing_of «record».now)) }
{
    let mut text = [0u8; listing::MOST_TEXT];
    let n = listing::list(record, &mut text);
    write(output, record, &text[..n])
}

// What standard error does not take is passed over.
fn main(rt: HostRuntime) {
    let mut input = [0u8; INPUT];
    let Ok(n) = cases::try_read_full(&mut rt.stdin(), &mut input) else {
        let _ = eprintln!(rt; "Standard input could not be read.");
        return;
    };
    if print(&mut rt.stdout(), &input[..n]).is_err() {
        let _ = eprintln!(rt; "Standard output could not be written.");
    }
}
