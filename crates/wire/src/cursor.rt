// Lent bytes that are read from a place on, one number after the other.
ghost use Rattle.std.specs.Prelude.{◌≡◌, length, IfErr};
ghost use Rattle.wire.specs.Reading.{number_at, Sound};
ghost use Rattle.wire.specs.Cursor.{with_place};

use crate::NumberError;

// The bytes, and the place of the next number.
#[derive(Drop)]
pub struct Cursor<'a> {
    pub bytes: &'a [u8],
    pub at: usize,
}

impl Cursor<'_> {
    // The number at the place, behind which the cursor then stands; where there is none it stays. Where the first byte has no high bit it is
    // the whole number, and nothing is put together.
    pub fn number(&mut self) -> Result<u32, NumberError>
        ensures same_bytes { self.new.bytes ≡ self.old.bytes }
        ensures stays { IfErr result (λ _. self.new.at ≡ self.old.at) }
        ensures found { let found = with_place result self.new.at in
            (found ≡ number_at self.old.bytes.now self.old.at) × Sound found (length self.old.bytes.now) }
    {
        if self.at < self.bytes.len() {
            let first = self.bytes[self.at];
            if first < 128 {
                self.at += 1;
                return Ok(first as u32);
            }
        }
        let (n, next) = self.groups()?;
        self.at = next;
        Ok(n)
    }

    // The number, and the place after it, by shift and mask, group by group. After k groups the value is below 2 to the 7k, so the next seven
    // bits are free.
    fn groups(&self) -> Result<(u32, usize), NumberError>
        ensures { (result ≡ number_at self.now.bytes.now self.now.at) × Sound result (length self.now.bytes.now) }
    {
        let mut value: u32 = 0;
        let mut place = self.at;
        for k in 0..4u32 {
            if self.bytes.len() <= place {
                return Err(NumberError::Short);
            }
            let b = self.bytes[place];
            value |= ((b & 127) as u32) << (7 * k);
            place += 1;
            if b < 128 {
                if b == 0 && 0 < k {
                    return Err(NumberError::Malformed);
                }
                return Ok((value, place));
            }
        }
        Err(NumberError::Malformed)
    }
}
