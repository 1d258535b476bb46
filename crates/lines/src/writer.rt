// Writes texts and numbers one behind the other into a lent buffer.
ghost use Rattle.std.specs.Prelude.{◌≡◌, [], ◌∷◌, ◌+◌, ◌≤◌, length};
ghost use Rattle.std.specs.Fmt.{decimal};
ghost use Rattle.lines.specs.Buffer.{Wrote};

use crate::number::{Number, places};
use itoa::write_digits;

// A lent buffer, and the position behind what was written.
#[derive(Drop)]
pub struct Writer<'a> {
    pub out: &'a mut [u8],
    pub at: usize,
}

impl<'a> Writer<'a> {
    // Writes a text.
    pub fn text(&mut self, text: &[u8])
        requires { self.old.at + length text.now ≤ length self.old.out.now }
        ensures { Wrote (length text.now) self.old text.now self.new }
    {
        let end = self.at + text.len();
        self.out[self.at..end].copy_from_slice(text);
        self.at = end;
    }

    // Writes a byte.
    pub fn byte(&mut self, byte: u8)
        requires { self.old.at + 1 ≤ length self.old.out.now }
        ensures { Wrote 1 self.old (byte ∷ []) self.new }
    {
        self.out[self.at] = byte;
        self.at += 1;
    }

    // Writes the digits of a number in place. Most numbers of a line have one.
    fn digits(&mut self, n: u64)
        requires { self.old.at + length (decimal n) ≤ length self.old.out.now }
        ensures { Wrote (length (decimal n)) self.old (decimal n) self.new }
    {
        if n < 10 {
            return self.byte(b'0' + n as u8);
        }
        let end = self.at + places(n);
        write_digits(n, &mut *self.out, end);
        self.at = end;
    }

    // Writes a number in decimal.
    pub fn number<I: Number>(&mut self, n: I)
        requires { self.old.at + I.MAX_STR_LEN ≤ length self.old.out.now }
        ensures { Wrote I.MAX_STR_LEN self.old (I.text n) self.new }
    {
        let (negative, magnitude) = n.parts();
        if negative {
            self.byte(b'-');
        }
        self.digits(magnitude);
    }

    // Writes a byte and a number.
    pub fn marked<I: Number>(&mut self, mark: u8, n: I)
        requires { self.old.at + 1 + I.MAX_STR_LEN ≤ length self.old.out.now }
        ensures { Wrote (1 + I.MAX_STR_LEN) self.old (mark ∷ I.text n) self.new }
    {
        self.byte(mark);
        self.number(n);
    }
}
