//! A short line of text without an allocator.
ghost use Rattle.std.specs.Prelude.{◌≡◌, ℕ, ◌+◌, ◌≤◌, ◌<◌, List, [], ◌++◌, length, take, drop, false};
ghost use Rattle.std.specs.Fmt.{digits, digit_glyph};
ghost use Rattle.cet_base.specs.Text.{hexadecimal};
ghost use Rattle.cet_base.specs.declared.line.TheConstants.{LINE_CAPACITY};

use itoa::{Buffer, Integer};
use std::marker::Model;

/// The most bytes of a line.
pub const LINE_CAPACITY: usize = 128;

/// The most digits of a number of 64 bits in hexadecimal.
const HEXADECIMAL_DIGITS: usize = 16;

/// A line of text that grows at its end. Contracts see its bytes.
#[derive(Drop)]
pub struct Line {
    bytes: [u8; LINE_CAPACITY],
    len: usize,
}

impl Model for Line {
    ghost Value = { List ℕ };

    ghost view = { λ line. take line.len line.bytes };

    ghost invariant = { λ line. line.len ≤ LINE_CAPACITY };
}

impl Line {
    /// An empty line.
    pub fn new() -> Line
        ensures { result ≡ [] }
    {
        Line {
            bytes: [0; LINE_CAPACITY],
            len: 0,
        }
    }

    /// The text.
    pub fn as_bytes(&self) -> &[u8]
        ensures { result.now ≡ self.now }
    {
        &self.bytes[..self.len]
    }

    /// Adds the piece.
    pub fn put(&mut self, piece: &[u8])
        requires { length self.old + length piece.now ≤ LINE_CAPACITY }
        ensures text { self.new ≡ self.old ++ piece.now }
        ensures room { length self.new ≡ length self.old + length piece.now }
    {
        let end = self.len + piece.len();
        self.bytes[self.len..end].copy_from_slice(piece);
        self.len = end;
    }

    /// Adds the number in decimal, with its sign where it is below 0.
    pub fn put_number<I: Integer>(&mut self, number: I)
        requires { length self.old + I.MAX_STR_LEN ≤ LINE_CAPACITY }
        ensures text { self.new ≡ self.old ++ I.text number }
        ensures room { length self.new ≤ length self.old + I.MAX_STR_LEN }
    {
        self.put(Buffer::new().format(number).as_bytes());
    }

    /// Adds the number in hexadecimal, after `0x` and without leading zeros.
    pub fn put_hexadecimal(&mut self, number: u64)
        requires { length self.old + 18 ≤ LINE_CAPACITY }
        ensures text { self.new ≡ self.old ++ hexadecimal number }
        ensures room { length self.new ≤ length self.old + 18 }
    {
        let mut glyphs = [0; HEXADECIMAL_DIGITS];
        let start = put_digits(number, &mut glyphs);
        self.put(b"0x");
        self.put(&glyphs[start..]);
    }
}

/// Puts the number's digits in hexadecimal at the end of the glyphs, and answers where they start.
fn put_digits(number: u64, glyphs: &mut [u8; HEXADECIMAL_DIGITS]) -> usize
    ensures within { result < 16 }
    ensures digits { drop result glyphs.new ≡ digits 16 false number }
{
    let mut start = HEXADECIMAL_DIGITS;
    let mut rest = number;
    loop {
        start -= 1;
        glyphs[start] = glyph((rest % 16) as u8);
        rest /= 16;
        if rest == 0 {
            return start;
        }
    }
}

fn glyph(digit: u8) -> u8
    requires { digit ≤ 15 }
    ensures { result ≡ digit_glyph false digit }
{
    if digit < 10 {
        b'0' + digit
    } else {
        b'a' + (digit - 10)
    }
}
