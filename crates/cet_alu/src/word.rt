//! Words of an operand's width, and whole numbers that are cut to one. A whole number is an `i128`, or a `u128` where it has no sign.
ghost use Rattle.std.specs.Prelude.{◌≡◌, ◌<◌, ◌≤◌, ◌-◌, ◌%◌, ◌^◌, ◌*◌, FitsSigned};
ghost use Rattle.std.specs.Int.{w64, int_shr};
ghost use Rattle.cet_machine.specs.Arithmetic.{bits, bit, top_bit, signed_of, low_bits, fits_signed, fits_unsigned, free_flags};
ghost use Rattle.cet_isa.specs.declared.operand.Width.{Width};

use cet_isa::{Flags, Width};

/// How many bits an operand has.
pub fn bits(w: Width) -> u32
    ensures { result ≡ bits w }
{
    match w {
        Width::B1 => 8,
        Width::B4 => 32,
        Width::B8 => 64,
    }
}

/// As many ones.
pub fn mask(w: Width) -> u64
    ensures { result ≡ 2 ^ bits w - 1 }
{
    match w {
        Width::B1 => 0xff,
        Width::B4 => 0xffff_ffff,
        Width::B8 => 0xffff_ffff_ffff_ffff,
    }
}

/// Bit `k` of `n`.
pub fn bit(n: u64, k: u32) -> bool
    requires { k < 64 }
    ensures { result ≡ bit n k }
{
    (n >> k) & 1 == 1
}

/// The sign of an operand.
pub fn top_bit(w: Width, n: u64) -> bool
    ensures { result ≡ top_bit w n }
{
    bit(n, bits(w) - 1)
}

/// The value of an operand in two's complement.
pub fn signed(w: Width, n: u64) -> i128
    requires { n < 2 ^ bits w }
    ensures value { result ≡ signed_of w n }
    ensures small { FitsSigned w64 result }
{
    match w {
        Width::B1 => i128::from((n as u8).cast_signed()),
        Width::B4 => i128::from((n as u32).cast_signed()),
        Width::B8 => i128::from(n.cast_signed()),
    }
}

/// `x` moved up by as many bits as one operand can have.
pub fn moved_up(x: u64, by: u32) -> u128
    requires { by ≤ 64 }
    ensures { result ≡ x * 2 ^ by }
{
    u128::from(x) << by
}

/// `z` moved down by fewer bits than it has, with its sign moved in at the top.
pub fn moved_down(z: i128, by: u32) -> i128
    requires { by < 128 }
    ensures { result ≡ int_shr z by }
{
    z >> by
}

/// What is left of `n` in an operand's bits.
pub fn cut(w: Width, n: u128) -> u64
    ensures { result ≡ n % 2 ^ bits w }
{
    (n & u128::from(mask(w))) as u64
}

/// The same of a number with a sign.
pub fn cut_signed(w: Width, z: i128) -> u64
    ensures { result ≡ low_bits (bits w) z }
{
    cut(w, z.cast_unsigned())
}

/// Whether an operand holds `z` as an unsigned number.
pub fn fits_unsigned(w: Width, z: i128) -> bool
    ensures { result ≡ fits_unsigned w z }
{
    0 <= z && z <= i128::from(mask(w))
}

/// Whether an operand holds `z` as a signed number.
pub fn fits_signed(w: Width, z: i128) -> bool
    ensures { result ≡ fits_signed w z }
{
    let limit = match w {
        Width::B1 => 0x80,
        Width::B4 => 0x8000_0000,
        Width::B8 => 0x8000_0000_0000_0000,
    };
    -limit <= z && z < limit
}

/// What the run chooses for flags that are undefined.
pub fn free_flags(free: u8) -> Flags
    ensures { result ≡ free_flags free }
{
    let n = u64::from(free);
    Flags {
        cf: bit(n, 0),
        zf: bit(n, 1),
        sf: bit(n, 2),
        of: bit(n, 3),
    }
}
