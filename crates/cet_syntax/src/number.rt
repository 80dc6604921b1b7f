//! Numbers as they are written.
ghost use Rattle.std.specs.Prelude.{◌≡◌, ℕ, ◌+◌, ◌*◌, ◌<◌, ◌^◌};
ghost use Rattle.std.specs.Char.{digit_value};
ghost use Rattle.cet_syntax.specs.Number.{narrowed, digits_in, unsigned_number, number_of, negated as negated_number, signed_field, unsigned_field, either_field};

/// A number as it is written. Its magnitude is none where it needs more than 64 bits.
#[derive(Clone, Copy, Debug, PartialEq, Eq)]
pub struct Number {
    pub negative: bool,
    pub magnitude: Option<u64>,
}

impl Number {
    /// The number 0.
    pub(crate) const ZERO: Number = Number {
        negative: false,
        magnitude: Some(0),
    };

    /// The number 1.
    pub(crate) const ONE: Number = Number {
        negative: false,
        magnitude: Some(1),
    };

    /// The number that the bytes are: decimal, or hexadecimal after `0x` with digits of either case, both with leading zeros and a
    /// `-` in front at will.
    pub fn read(bytes: &[u8]) -> Option<Number>
        ensures { result ≡ number_of bytes.now }
    {
        if bytes.starts_with(b"-") {
            unsigned(&bytes[1..]).map(|number| number.negated())
        } else {
            unsigned(bytes)
        }
    }

    /// With the other sign.
    pub(crate) fn negated(self) -> Number
        ensures { result ≡ negated_number self }
    {
        Number {
            negative: !self.negative,
            magnitude: self.magnitude,
        }
    }

    /// As a field of 32 bits with a sign.
    pub fn as_i32(self) -> Option<i32>
        ensures { result ≡ signed_field (2 ^ 31) self }
    {
        self.as_i64().and_then(|value| i32::try_from(value).ok())
    }

    /// As a field of 8 bits with a sign.
    pub fn as_i8(self) -> Option<i8>
        ensures { result ≡ signed_field 128 self }
    {
        self.as_i64().and_then(|value| i8::try_from(value).ok())
    }

    /// As a field of 64 bits with a sign.
    pub fn as_i64(self) -> Option<i64>
        ensures { result ≡ signed_field (2 ^ 63) self }
    {
        let magnitude = self.magnitude?;
        if self.negative {
            0i64.checked_sub_unsigned(magnitude)
        } else {
            i64::try_from(magnitude).ok()
        }
    }

    /// As a field of 64 bits without a sign.
    pub fn as_u64(self) -> Option<u64>
        ensures { result ≡ unsigned_field (2 ^ 64) self }
    {
        let magnitude = self.magnitude?;
        if self.negative && magnitude != 0 {
            None
        } else {
            Some(magnitude)
        }
    }

    /// As a field of 32 bits without a sign.
    pub fn as_u32(self) -> Option<u32>
        ensures { result ≡ unsigned_field (2 ^ 32) self }
    {
        self.as_u64().and_then(|value| u32::try_from(value).ok())
    }

    /// As a field of 8 bits without a sign.
    pub fn as_u8(self) -> Option<u8>
        ensures { result ≡ unsigned_field 256 self }
    {
        self.as_u64().and_then(|value| u8::try_from(value).ok())
    }

    /// As a field of 64 bits, with or without a sign.
    pub fn as_quad(self) -> Option<u64>
        ensures { result ≡ either_field 64 self }
    {
        let magnitude = self.magnitude?;
        if !self.negative {
            return Some(magnitude);
        }
        if magnitude > 1 << 63 {
            return None;
        }
        Some(magnitude.wrapping_neg())
    }

    /// As a field of 8 bits, with or without a sign.
    pub fn as_byte(self) -> Option<u8>
        ensures { result ≡ either_field 8 self }
    {
        let magnitude = u8::try_from(self.magnitude?).ok()?;
        if !self.negative {
            return Some(magnitude);
        }
        if magnitude > 1 << 7 {
            return None;
        }
        Some(magnitude.wrapping_neg())
    }
}

fn digit(byte: u8) -> u8
    ensures { result ≡ digit_value byte }
{
    match byte {
        b'0'..=b'9' => byte - b'0',
        b'A'..=b'Z' => byte - b'A' + 10,
        b'a'..=b'z' => byte - b'a' + 10,
        _ => 36,
    }
}

// A value with a digit behind it, none past 64 bits.
fn shifted(value: Option<u64>, base: u8, digit: u8) -> Option<u64>
    requires { 0 < base }
    ensures { (n : ℕ) → value ≡ narrowed n → result ≡ narrowed (n * base + digit) }
{
    value?
        .checked_mul(u64::from(base))?
        .checked_add(u64::from(digit))
}

// The number that digits of a base write.
fn digits(base: u8, bytes: &[u8]) -> Option<Number>
    requires { 0 < base }
    ensures { result ≡ digits_in base bytes.now }
{
    if bytes.is_empty() {
        return None;
    }
    let mut magnitude = Some(0);
    for byte in bytes {
        let digit = digit(*byte);
        if digit >= base {
            return None;
        }
        magnitude = shifted(magnitude, base, digit);
    }
    Some(Number {
        negative: false,
        magnitude,
    })
}

/// The number that the bytes are, without a sign.
pub(crate) fn unsigned(bytes: &[u8]) -> Option<Number>
    ensures { result ≡ unsigned_number bytes.now }
{
    if bytes.starts_with(b"0x") {
        digits(16, &bytes[2..])
    } else {
        digits(10, bytes)
    }
}
