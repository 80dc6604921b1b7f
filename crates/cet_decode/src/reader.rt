//! Bytes and little-endian numbers at the head of a slice, each with the bytes after it.

ghost use Rattle.std.specs.Int.{w8, w32, w64};
ghost use Rattle.cet_isa.specs.Reader.{byte_at, unsigned_at, signed_at};
ghost use Rattle.cet_decode.specs.Gives.{Gives};

use cet_isa::DecodeError;

pub(crate) fn byte(bytes: &[u8]) -> Result<(u8, &[u8]), DecodeError>
    ensures { Gives (λ x. (x.0, x.1.now)) result (byte_at bytes.now) }
{
    match bytes {
        [first, rest @ ..] => Ok((*first, rest)),
        [] => Err(DecodeError::Short),
    }
}

pub(crate) fn unsigned8(bytes: &[u8]) -> Result<(u8, &[u8]), DecodeError>
    ensures { Gives (λ x. (x.0, x.1.now)) result (unsigned_at w8 bytes.now) }
{
    if bytes.len() < 1 {
        return Err(DecodeError::Short);
    }
    let (field, rest) = bytes.split_at(1);
    Ok((field[0], rest))
}

pub(crate) fn unsigned32(bytes: &[u8]) -> Result<(u32, &[u8]), DecodeError>
    ensures { Gives (λ x. (x.0, x.1.now)) result (unsigned_at w32 bytes.now) }
{
    if bytes.len() < 4 {
        return Err(DecodeError::Short);
    }
    let (field, rest) = bytes.split_at(4);
    Ok((
        u32::from_le_bytes([field[0], field[1], field[2], field[3]]),
        rest,
    ))
}

pub(crate) fn unsigned64(bytes: &[u8]) -> Result<(u64, &[u8]), DecodeError>
    ensures { Gives (λ x. (x.0, x.1.now)) result (unsigned_at w64 bytes.now) }
{
    if bytes.len() < 8 {
        return Err(DecodeError::Short);
    }
    let (field, rest) = bytes.split_at(8);
    let number = u64::from_le_bytes([
        field[0], field[1], field[2], field[3], field[4], field[5], field[6], field[7],
    ]);
    Ok((number, rest))
}

pub(crate) fn signed8(bytes: &[u8]) -> Result<(i8, &[u8]), DecodeError>
    ensures { Gives (λ x. (x.0, x.1.now)) result (signed_at w8 bytes.now) }
{
    let (number, rest) = unsigned8(bytes)?;
    Ok((number.cast_signed(), rest))
}

pub(crate) fn signed32(bytes: &[u8]) -> Result<(i32, &[u8]), DecodeError>
    ensures { Gives (λ x. (x.0, x.1.now)) result (signed_at w32 bytes.now) }
{
    let (number, rest) = unsigned32(bytes)?;
    Ok((number.cast_signed(), rest))
}
