// Bytes and numbers written one behind the other into a lent buffer, as long as there is room.

ghost use Rattle.std.specs.Prelude.{[], ◌∷◌, ◌≡◌};
ghost use Rattle.report.specs.Text.{decimal};
ghost use Rattle.report.specs.Writer.{Writes};

use itoa::Buffer;

// The buffer, and the place of the next byte.
#[derive(Drop)]
pub struct Writer<'a> {
    out: &'a mut [u8],
    pub at: usize,
}

impl<'a> Writer<'a> {
    // A writer that starts at the buffer's first byte.
    pub fn new(out: &'a mut [u8]) -> Writer<'a>
        ensures same_reference { result.out.ghost_name ≡ out.entry.ghost_name }
        ensures bytes { result.out.now ≡ out.old }
        ensures start { result.at ≡ 0 }
    {
        Writer { out, at: 0 }
    }

    // Writes a byte, if the buffer has room for it.
    pub fn put(&mut self, byte: u8)
        ensures { Writes self.old self.new (byte ∷ []) }
    {
        if self.at < self.out.len() {
            self.out[self.at] = byte;
            self.at += 1;
        }
    }

    // Writes the bytes of a text.
    pub fn text(&mut self, bytes: &[u8])
        ensures { Writes self.old self.new bytes.now }
    {
        for &byte in bytes {
            self.put(byte);
        }
    }

    // Writes a number in decimal. Display and `write!` print the same digits, but by `fmt::Write`, whose clauses don't say that a write can't fail.
    pub fn number(&mut self, n: usize)
        ensures { Writes self.old self.new (decimal n) }
    {
        let mut digits = Buffer::new();
        self.text(digits.format(n).as_bytes());
    }
}
