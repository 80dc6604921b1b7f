//! Bytes at the end of a file that grows to 1 GiB at most.

ghost use Rattle.std.specs.Prelude.{◌≡◌, ◌≤◌, ◌++◌, IfOk, OnOk, vec_len, length, drop};
ghost use Rattle.byteorder.specs.Endian.{little_bytes};
ghost use Rattle.cet_elf.specs.Written.{padded, ended, name_offset};

use byteorder::{ByteOrder, LittleEndian};
use cet_base::NoMemory;

/// The length of the longest file that is written, in bytes. What would be longer is answered as want of memory.
pub const SIZE_LIMIT: usize = 1_073_741_824;

/// The bytes at the end.
pub fn put(out: &mut Vec<u8>, piece: &[u8]) -> Result<(), NoMemory>
    ensures bytes { OnOk result (out.new.items ≡ out.old.items ++ piece.now) }
    ensures limit { OnOk result (vec_len out.new ≤ SIZE_LIMIT) }
{
    if out.len() > SIZE_LIMIT || SIZE_LIMIT - out.len() < piece.len() {
        return Err(NoMemory);
    }
    out.extend_from_slice(piece)?;
    Ok(())
}

/// A number of one byte.
pub fn put_u8(out: &mut Vec<u8>, number: u8) -> Result<(), NoMemory>
    ensures bytes { OnOk result (out.new.items ≡ out.old.items ++ little_bytes 1 number) }
    ensures limit { OnOk result (vec_len out.new ≤ SIZE_LIMIT) }
{
    put(out, &[number])
}

/// A number of 2 bytes.
pub fn put_u16(out: &mut Vec<u8>, number: u16) -> Result<(), NoMemory>
    ensures bytes { OnOk result (out.new.items ≡ out.old.items ++ little_bytes 2 number) }
    ensures limit { OnOk result (vec_len out.new ≤ SIZE_LIMIT) }
{
    let mut field = [0; 2];
    LittleEndian::write_u16(&mut field, number);
    put(out, &field)
}

/// A number of 4 bytes.
pub fn put_u32(out: &mut Vec<u8>, number: u32) -> Result<(), NoMemory>
    ensures bytes { OnOk result (out.new.items ≡ out.old.items ++ little_bytes 4 number) }
    ensures limit { OnOk result (vec_len out.new ≤ SIZE_LIMIT) }
{
    let mut field = [0; 4];
    LittleEndian::write_u32(&mut field, number);
    put(out, &field)
}

/// A number of 8 bytes.
pub fn put_u64(out: &mut Vec<u8>, number: u64) -> Result<(), NoMemory>
    ensures bytes { OnOk result (out.new.items ≡ out.old.items ++ little_bytes 8 number) }
    ensures limit { OnOk result (vec_len out.new ≤ SIZE_LIMIT) }
{
    let mut field = [0; 8];
    LittleEndian::write_u64(&mut field, number);
    put(out, &field)
}

/// The bytes of a section, and zeros up to the next multiple of 8.
pub fn put_padded(out: &mut Vec<u8>, content: &[u8]) -> Result<(), NoMemory>
    ensures bytes { OnOk result (out.new.items ≡ out.old.items ++ padded content.now) }
    ensures limit { OnOk result (vec_len out.new ≤ SIZE_LIMIT) }
{
    put(out, content)?;
    let zeros = [0; 8];
    put(out, &zeros[..(8 - content.len() % 8) % 8])
}

/// A name in a string table, ended by a zero byte; nothing for an empty name.
pub fn put_name(names: &mut Vec<u8>, name: &[u8]) -> Result<(), NoMemory>
    ensures { OnOk result (names.new.items ≡ names.old.items ++ ended name.now) }
{
    if name.is_empty() {
        return Ok(());
    }
    put(names, name)?;
    put(names, b"\0")
}

/// The offset of a name that is put next into a string table.
pub fn name_place(names: &Vec<u8>, name: &[u8]) -> Result<u32, NoMemory>
    ensures { IfOk result (λ at. at ≡ name_offset name.now (vec_len names.now)) }
{
    if name.is_empty() {
        return Ok(0);
    }
    if names.len() > SIZE_LIMIT {
        return Err(NoMemory);
    }
    Ok(names.len() as u32)
}

/// Puts bytes in place of as many at the front.
pub fn put_front(room: &mut [u8], front: &[u8])
    requires { length front.now ≤ length room.old }
    ensures { room.new ≡ front.now ++ drop (length front.now) room.old }
{
    room[..front.len()].copy_from_slice(front);
}
