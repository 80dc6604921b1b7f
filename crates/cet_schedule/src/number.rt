//! Numbers as they are written.
ghost use Rattle.std.specs.Prelude.{◌≡◌, ℕ, ◌+◌, ◌*◌, ◌<◌, ◌^◌};
ghost use Rattle.std.specs.Char.{digit_value};
ghost use Rattle.cet_schedule.specs.Number.{digits_below, number_below};
ghost use Rattle.cet_schedule.specs.Narrowed.{narrowed};

fn digit(byte: u8) -> u8
    ensures { result ≡ digit_value byte }
{
    match byte {
        b'0'..=b'9' => byte - b'0',
        b'A'..=b'Z' => byte - b'A' + 10,
        b'a'..=b'z' => byte - b'a' + 10,
        _ => 36,
    }
}

/// A value with a digit behind it, none past 64 bits.
fn shifted(value: Option<u64>, base: u8, digit: u8) -> Option<u64>
    requires { 0 < base }
    ensures { (n : ℕ) → value ≡ narrowed n → result ≡ narrowed (n * base + digit) }
{
    value?
        .checked_mul(u64::from(base))?
        .checked_add(u64::from(digit))
}

/// The number that digits of a base write.
fn digits(base: u8, bytes: &[u8]) -> Option<u64>
    requires { 0 < base }
    ensures { result ≡ digits_below (2 ^ 64) base bytes.now }
{
    if bytes.is_empty() {
        return None;
    }
    let mut value = Some(0);
    for byte in bytes {
        let digit = digit(*byte);
        if digit >= base {
            return None;
        }
        value = shifted(value, base, digit);
    }
    value
}

/// The number of 64 bits that the bytes are: decimal, or hexadecimal after `0x` with digits of either case, both with leading zeros at will.
pub(crate) fn number(bytes: &[u8]) -> Option<u64>
    ensures { result ≡ number_below (2 ^ 64) bytes.now }
{
    if bytes.starts_with(b"0x") {
        digits(16, &bytes[2..])
    } else {
        digits(10, bytes)
    }
}

/// The number of 32 bits that the bytes are.
pub(crate) fn short_number(bytes: &[u8]) -> Option<u32>
    ensures { result ≡ number_below (2 ^ 32) bytes.now }
{
    u32::try_from(number(bytes)?).ok()
}
