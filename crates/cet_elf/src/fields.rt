//! Little-endian fields and parts of a file, where its bytes are known to be there.

ghost use Rattle.std.specs.Prelude.{◌≡◌, ◌+◌, ◌≤◌, ◌<◌, true, length};
ghost use Rattle.cet_elf.specs.Fields.{number, part as the_part, is_part as the_test};

use byteorder::{ByteOrder, LittleEndian};

/// The byte at `at`.
#[tactic(auto, unfolding(crate::specs::Fields::number))]
pub fn byte(bytes: &[u8], at: u64) -> u8
    requires { at < length bytes.now }
    ensures { result ≡ number 1 bytes.now at }
{
    bytes[at as usize]
}

/// The field of 2 bytes at `at`.
#[tactic(auto, unfolding(crate::specs::Fields::number))]
pub fn half(bytes: &[u8], at: u64) -> u16
    requires { at + 2 ≤ length bytes.now }
    ensures { result ≡ number 2 bytes.now at }
{
    LittleEndian::read_u16(&bytes[at as usize..at as usize + 2])
}

/// The field of 4 bytes at `at`.
#[tactic(auto, unfolding(crate::specs::Fields::number))]
pub fn word(bytes: &[u8], at: u64) -> u32
    requires { at + 4 ≤ length bytes.now }
    ensures { result ≡ number 4 bytes.now at }
{
    LittleEndian::read_u32(&bytes[at as usize..at as usize + 4])
}

/// The field of 8 bytes at `at`.
#[tactic(auto, unfolding(crate::specs::Fields::number))]
pub fn xword(bytes: &[u8], at: u64) -> u64
    requires { at + 8 ≤ length bytes.now }
    ensures { result ≡ number 8 bytes.now at }
{
    LittleEndian::read_u64(&bytes[at as usize..at as usize + 8])
}

/// Whether the `size` bytes at `at` are in the file.
pub fn is_part(bytes: &[u8], at: u64, size: u64) -> bool
    ensures { result ≡ the_test bytes.now at size }
{
    let len = bytes.len() as u64;
    size == 0 || (at <= len && size <= len - at)
}

/// The `size` bytes at `at`.
pub fn part(bytes: &[u8], at: u64, size: u64) -> &[u8]
    requires { the_test bytes.now at size ≡ true }
    ensures { result.now ≡ the_part bytes.now at size }
{
    if size == 0 {
        return &bytes[..0];
    }
    &bytes[at as usize..(at + size) as usize]
}
