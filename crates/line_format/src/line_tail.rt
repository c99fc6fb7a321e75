//! The tail of a line. It grows towards its front in a small buffer on the stack, so that the line
//! is appended at once.
ghost use Rattle.std.specs.Prelude.{◌≡◌, ℕ, ◌+◌, ◌*◌, ◌<◌, ◌≤◌, ◌++◌, [], ◌∷◌, OnOk, length, decimal};
ghost use Rattle.hex.specs.Hex.{encode_lower};

use itoa::write_digits;
use std::alloc::AllocError;
use std::marker::Model;

/// The last bytes of a line, at most 64.
#[derive(Drop)]
pub struct LineTail {
    bytes: [u8; 64],
    start: usize,
}

impl Model for LineTail {
    ghost use Rattle.std.specs.Prelude.{List, drop, ◌≤◌, ℕ};

    ghost Value = { List ℕ };

    ghost view = { λ end. drop end.start end.bytes };

    ghost invariant = { λ end. end.start ≤ 64 };
}

impl LineTail {
    /// Returns a tail of one byte.
    #[inline(always)]
    pub fn of(byte: u8) -> LineTail
        ensures { result ≡ byte ∷ [] }
    {
        let mut bytes = [0; 64];
        bytes[63] = byte;
        LineTail { bytes, start: 63 }
    }

    /// Prepends a byte.
    #[inline(always)]
    fn byte(&mut self, byte: u8)
        requires { length self.old < 64 }
        ensures { self.new ≡ byte ∷ self.old }
    {
        self.bytes[self.start - 1] = byte;
        self.start -= 1;
    }

    /// Prepends a number of at most 10 digits, with a space before it.
    #[inline(always)]
    pub fn number(&mut self, number: u32)
        requires { length self.old + 11 ≤ 64 }
        ensures put { self.new ≡ 32 ∷ (decimal number ++ self.old) }
        ensures short { length self.new ≤ length self.old + 11 }
    {
        self.start = write_digits(u64::from(number), &mut self.bytes, self.start);
        self.byte(b' ');
    }

    /// Prepends a number of at most 20 digits, with a space before it.
    #[inline(always)]
    pub fn long_number(&mut self, number: u64)
        requires { length self.old + 21 ≤ 64 }
        ensures put { self.new ≡ 32 ∷ (decimal number ++ self.old) }
        ensures short { length self.new ≤ length self.old + 21 }
    {
        self.start = write_digits(number, &mut self.bytes, self.start);
        self.byte(b' ');
    }

    /// Prepends a word.
    #[inline(always)]
    pub fn word(&mut self, word: &[u8])
        requires { length self.old + length word.now ≤ 64 }
        ensures { self.new ≡ word.now ++ self.old }
    {
        let start = self.start - word.len();
        self.bytes[start..self.start].copy_from_slice(word);
        self.start = start;
    }

    /// Prepends the digits of a few bytes.
    #[inline(always)]
    pub fn hex(&mut self, bytes: &[u8])
        requires { length self.old + 2 * length bytes.now ≤ 64 }
        ensures put { self.new ≡ encode_lower bytes.now ++ self.old }
        ensures short { length self.new ≤ length self.old + 2 * length bytes.now }
    {
        let start = self.start - 2 * bytes.len();
        if hex::encode_to_slice(bytes, &mut self.bytes[start..self.start]).is_err() {
            unreachable!()
        }
        self.start = start;
    }

    /// Appends the tail to a text.
    // claim with LineTail::of, LineTail::number.put, LineTail::number.short,
    //    LineTail::long_number.put, LineTail::long_number.short, LineTail::word, LineTail::hex.put,
    //    LineTail::hex.short: The end of a line grows to its front, in 64 bytes on the stack, and
    //    is written as it is.
    #[inline(always)]
    pub fn put(&self, out: &mut Vec<u8>) -> Result<(), AllocError>
        ensures { OnOk result (out.new.items ≡ out.old.items ++ self.now) }
    {
        out.extend_from_slice(&self.bytes[self.start..])
    }
}
