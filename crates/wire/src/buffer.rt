// A lent buffer that is filled from a place on, one run of bytes after the other.
ghost use Rattle.std.specs.Prelude.{◌≡◌, ◌+◌, ◌<◌, ◌≤◌, ◌^◌, [], ◌∷◌, length};
ghost use Rattle.wire.specs.Writing.{bytes_of};

// The buffer, and the place where its next byte goes.
#[derive(Drop)]
pub struct Writer<'a> {
    pub buffer: &'a mut [u8],
    pub at: usize,
    pub ghost within: { at ≤ length buffer.now },
}

impl<'a> Writer<'a> {
    ghost use Rattle.wire.specs.Writer.{Writes};

    // A writer from the buffer's start on.
    pub fn new(buffer: &'a mut [u8]) -> Writer<'a>
        ensures same_buffer { result.buffer.ghost_name ≡ buffer.entry.ghost_name }
        ensures bytes { result.buffer.now ≡ buffer.old }
        ensures start { result.at ≡ 0 }
    {
        Writer { buffer, at: 0 }
    }

    // Puts one byte.
    pub fn byte(&mut self, b: u8)
        requires { self.old.at < length self.old.buffer.now }
        ensures { Writes self.old (b ∷ []) self.new }
    {
        self.buffer[self.at] = b;
        self.at += 1;
    }

    // Puts some bytes.
    pub fn bytes(&mut self, bytes: &[u8])
        requires { self.old.at + length bytes.now ≤ length self.old.buffer.now }
        ensures { Writes self.old bytes.now self.new }
    {
        let end = self.at + bytes.len();
        self.buffer[self.at..end].copy_from_slice(bytes);
        self.at = end;
    }

    // Puts the four bytes that open a record or a reply.
    pub fn opening(&mut self, opening: [u8; 4])
        requires { self.old.at + 4 ≤ length self.old.buffer.now }
        ensures { Writes self.old opening self.new }
    {
        self.bytes(&opening);
    }

    // Puts n's groups, the low seven bits of what is left first. Not a `for`: how many there are shows as they are put.
    #[inline]
    pub fn number(&mut self, n: u32)
        requires { (n < 2 ^ 28) × (self.old.at + length (bytes_of n) ≤ length self.old.buffer.now) }
        ensures { Writes self.old (bytes_of n) self.new }
    {
        let mut rest = n;
        while 127 < rest {
            self.byte(((rest & 127) | 128) as u8);
            rest >>= 7;
        }
        self.byte(rest as u8);
    }
}
