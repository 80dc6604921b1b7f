//! Writing a property note.

ghost use Rattle.std.specs.Prelude.{◌≡◌, ◌+◌, ◌*◌, ◌<◌, ◌^◌, ◌++◌, IfOk, OnOk, length};
ghost use Rattle.cet_note.specs.Form.{word_bytes, stored_of, stored_bytes, header, written};

use crate::props::Props;
use byteorder::{ByteOrder, LittleEndian};
use cet_base::NoMemory;
use std::alloc::Global;

// A word of 4 bytes at the end.
fn put_word(out: &mut Vec<u8>, word: u32) -> Result<(), NoMemory>
    ensures { OnOk result (out.new.items ≡ out.old.items ++ word_bytes word) }
{
    let mut field = [0; 4];
    LittleEndian::write_u32(&mut field, word);
    out.extend_from_slice(&field)?;
    Ok(())
}

// The header of a note with a descriptor of `size` bytes: the sizes of the name and of the descriptor, the type of the
// note and the name.
fn put_header(out: &mut Vec<u8>, size: u32) -> Result<(), NoMemory>
    ensures { OnOk result (out.new.items ≡ out.old.items ++ header size) }
{
    put_word(out, 4)?;
    put_word(out, size)?;
    put_word(out, 5)?;
    out.extend_from_slice(b"GNU\0")?;
    Ok(())
}

// A property: its type, the size of its word, the word, and padding up to a multiple of 8 bytes.
fn put_property(out: &mut Vec<u8>, kind: u32, bits: u32) -> Result<(), NoMemory>
    ensures { OnOk result (out.new.items ≡ out.old.items ++ stored_bytes (stored_of (kind, bits))) }
{
    put_word(out, kind)?;
    put_word(out, 4)?;
    put_word(out, bits)?;
    put_word(out, 0)?;
    Ok(())
}

/// The bytes of a `.note.gnu.property` section with these properties: none where there is no property, else one note
/// with the properties in ascending order of their types and zero bytes as padding (ELF gABI, "Note Section"; System V
/// x86-64 psABI, "Program Property"). `read_note` reads them back.
pub fn write_note(alloc: Global, props: &Props) -> Result<Vec<u8>, NoMemory>
    ensures { IfOk result (λ bytes. bytes.items ≡ written props.now) }
{
    let mut out = Vec::new(alloc);
    if props.is_empty() {
        return Ok(out);
    }
    put_header(&mut out, 16 * props.len())?;
    for (kind, bits) in props.iter() {
        put_property(&mut out, *kind, *bits)?;
    }
    Ok(out)
}
