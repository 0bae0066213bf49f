// What C calls: the detector, the writer and the reader under their own names, each with its clauses word for word (include/geckoneedle.h).
// For C a slice is a pointer and a length, in entries. There is no other code here.
#![tactic(auto)]

ghost use Rattle.std.specs.Prelude.{◌≡◌, length};
ghost use Rattle.refusals.specs.Filling.{returned, buffer_after, call, filling};
ghost use Rattle.detector.specs.Outcome.{outcome};
ghost use Rattle.records.specs.Writing.{writing, reading};

// One record in, one reply out: the reply's length, or minus the refusal number over an untouched buffer.
#[unsafe(no_mangle)]
pub extern "C" fn geckoneedle_detect(record: &[u8], reply: &mut [u8]) -> i64
    ensures { (result ≡ returned (outcome «record».now (length reply.old)))
        × (reply.new ≡ buffer_after (outcome «record».now (length reply.old)) reply.old) }
{
    detector::geckoneedle_detect(record, reply)
}

// A list's whole numbers in, and the opening told by its number; record bytes out: how many, or minus the refusal number over an untouched
// buffer.
#[unsafe(no_mangle)]
pub extern "C" fn geckoneedle_write(opening: u32, numbers: &[i32], record: &mut [u8]) -> i64
    ensures { call result «record».new
        ≡ filling (writing opening numbers.now (length «record».old)) «record».old }
{
    records::geckoneedle_write(opening, numbers, record)
}

// A record's bytes in, its whole numbers out: how many, or minus the refusal number over an untouched list.
#[unsafe(no_mangle)]
pub extern "C" fn geckoneedle_read(record: &[u8], numbers: &mut [i32]) -> i64
    ensures { call result numbers.new
        ≡ filling (reading «record».now (length numbers.old)) numbers.old }
{
    records::geckoneedle_read(record, numbers)
}
