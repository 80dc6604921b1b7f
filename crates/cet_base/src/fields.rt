//! Little-endian fields of a list of bytes.
ghost use Rattle.std.specs.Prelude.{◌≡◌, ◌+◌, ◌<◌, ◌≤◌, length, take, drop, MatchOption};
ghost use Rattle.cet_base.specs.Field.{field};

use byteorder::{ByteOrder, LittleEndian};

// The `width` bytes from `at` on, if so many are there.
fn part(bytes: &[u8], at: u64, width: usize) -> Option<&[u8]>
    ensures { MatchOption result (length bytes.now < at + width) (λ p. (at + width ≤ length bytes.now) × (p.now ≡ take width (drop at bytes.now))) }
{
    let start = at as usize;
    if bytes.len() < start || bytes.len() - start < width {
        return None;
    }
    Some(&bytes[start..start + width])
}

/// The little-endian field of 2 bytes at `at`. None exactly where it passes the end.
pub fn field_u16(bytes: &[u8], at: u64) -> Option<u16>
    ensures { result ≡ field 2 bytes.now at }
{
    let found = part(bytes, at, 2)?;
    Some(LittleEndian::read_u16(found))
}

/// The little-endian field of 4 bytes at `at`. None exactly where it passes the end.
pub fn field_u32(bytes: &[u8], at: u64) -> Option<u32>
    ensures { result ≡ field 4 bytes.now at }
{
    let found = part(bytes, at, 4)?;
    Some(LittleEndian::read_u32(found))
}

/// The little-endian field of 8 bytes at `at`. None exactly where it passes the end.
pub fn field_u64(bytes: &[u8], at: u64) -> Option<u64>
    ensures { result ≡ field 8 bytes.now at }
{
    let found = part(bytes, at, 8)?;
    Some(LittleEndian::read_u64(found))
}
