// The listing of a record as text: each vector is searched in record order, and its line is written.
#![tactic(auto)]

ghost use Rattle.std.specs.Prelude.{◌≡◌, ◌++◌, ◌≤◌, length, drop};
ghost use Rattle.io.specs.Counts.{IsPrefixLen};
ghost use Rattle.wire.specs.Writing.{Wrote};
ghost use Rattle.block.specs.Contents.{block_of};
ghost use Rattle.lines.specs.Text.{most_text, block_text, listing_of};
ghost use Rattle.listing.specs.Steps.{CanList, Lists, VectorsAsked, VectorsListed, BlockAsked};

use block::Layout;
use detector::{Header, Sink};
use search::Found;
use wire::Writer;

// Room for the listing of any record: a first line of at most 87 bytes, 64 lines of at most 354, a last one of at most 17.
pub const MOST_TEXT: usize = 22760;

// The text that the vectors' lines go to, and the nodes of those that are listed.
#[derive(Drop)]
struct Listed<'t, 'b> {
    text: &'t mut Writer<'b>,
    total: u32,
}

impl Sink for Listed<'_, '_> {
    ghost can_take = { CanList };

    ghost takes = { Lists };

    fn take(&mut self, k: usize, found: Found, soft: &[i32], priors: &[i32]) {
        lines::write_line(self.text, k as u32 + 1, found, soft, priors);
        self.total += found.count;
    }
}

// The lines of all vectors, in record order; the nodes of all.
fn write_vectors(text: &mut Writer<'_>, numbers: &[i32], h: Header) -> u32
    requires { VectorsAsked h numbers.now text.old }
    ensures { VectorsListed (block_of h.layout numbers.now) text.old text.new result }
{
    let mut listed = Listed { text, total: 0 };
    detector::for_each_answer(numbers, h, &mut listed);
    listed.total
}

// The listing of the record that the lent list holds; the place after it.
fn write_block(text: &mut [u8], layout: Layout, numbers: &[i32]) -> usize
    requires { BlockAsked layout numbers.now (length text.old) }
    ensures { (result ≤ most_text) × Wrote text.old 0 (block_text (block_of layout numbers.now)) text.new result }
{
    let h = detector::header_of(layout, numbers);
    let (m, q, n) = (h.streams as u32, h.width as u32, h.vectors as u32);
    let mut writer = Writer::new(text);
    lines::write_head(&mut writer, m, q, n, h.clip, h.share);
    let total = write_vectors(&mut writer, numbers, h);
    lines::write_last(&mut writer, b"total ", total);
    writer.at
}

// The listing of any bytes, as document 01 prints it; its length. What stands behind it in the text stays.
pub fn list(record: &[u8], text: &mut [u8; MOST_TEXT]) -> usize
    ensures value { result ≡ length (listing_of «record».now) }
    ensures text_after { text.new ≡ listing_of «record».now ++ drop result text.old }
    ensures prefix_len { IsPrefixLen result text.new }
{
    let mut numbers = [0i32; block::MOST_NUMBERS];
    match reader::read_whole(record, &mut numbers) {
        Ok(_) => write_block(text, reader::layout_of(record), &numbers),
        Err(refusal) => {
            let mut writer = Writer::new(text);
            lines::write_last(&mut writer, b"refused ", refusals::refusal_number(refusal));
            writer.at
        }
    }
}
