//! Numbers as they stand in the code: in two's complement or unsigned, little endian.
ghost use Rattle.std.specs.Prelude.{◌≡◌, Some, is_some};
ghost use Rattle.std.specs.Int.{w8, w32, w64};
ghost use Rattle.cet_isa.specs.Canonical.{fits, signed, unsigned};

/// A number in 8 bits. None exactly where it does not fit.
pub(crate) fn short_signed(number: i32) -> Option<[u8; 1]>
    ensures bytes { result ≡ signed w8 number }
    ensures fits { is_some result ≡ fits w8 number }
{
    let short = i8::try_from(number).ok()?;
    Some(short.to_le_bytes())
}

/// A number in the 8 bits that it has.
pub(crate) fn signed8(number: i8) -> [u8; 1]
    ensures { Some result ≡ signed w8 number }
{
    number.to_le_bytes()
}

/// A number in 32 bits.
pub(crate) fn signed32(number: i32) -> [u8; 4]
    ensures { Some result ≡ signed w32 number }
{
    number.to_le_bytes()
}

/// An unsigned number in 8 bits. None exactly where it does not fit.
pub(crate) fn unsigned8(number: u64) -> Option<[u8; 1]>
    ensures { result ≡ unsigned w8 number }
{
    let short = u8::try_from(number).ok()?;
    Some(short.to_le_bytes())
}

/// An unsigned number in 32 bits. None exactly where it does not fit.
pub(crate) fn unsigned32(number: u64) -> Option<[u8; 4]>
    ensures { result ≡ unsigned w32 number }
{
    let short = u32::try_from(number).ok()?;
    Some(short.to_le_bytes())
}

/// An unsigned number in 64 bits.
pub(crate) fn unsigned64(number: u64) -> [u8; 8]
    ensures { Some result ≡ unsigned w64 number }
{
    number.to_le_bytes()
}
