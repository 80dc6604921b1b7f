//! Writing an object.

ghost use Rattle.std.specs.Prelude.{◌≡◌, ◌≤◌, ◌<◌, ◌^◌, ◌+◌, ◌∷◌, [], ◌++◌, IfOk, OnOk, IsTrue, length, drop, codes, count_by, vec_len};
ghost use Rattle.cet_elf.specs.Written.{written, identification, object_kind, object_tables, object_header, string_part, ended, has_relocations, symtab_number as symtab_number_of};
ghost use Rattle.cet_elf.specs.Layout.{Adds};
ghost use Rattle.cet_elf.specs.Regular.{IsRegular};
ghost use Rattle.cet_elf.specs.ObjectFile.{IsObjectFile};

use crate::layout::{Fields, Layout, put_section_header};
use crate::object::{Object, Section};
use crate::parts::{add_note, add_relas, add_sections, add_symbols};
use crate::put::{
    SIZE_LIMIT, name_place, put, put_front, put_name, put_padded, put_u16, put_u32, put_u64,
};
use cet_base::NoMemory;
use std::alloc::Global;

// The table of section names, its own name among them.
fn add_names(layout: &mut Layout) -> Result<(), NoMemory>
    ensures { OnOk result (Adds layout.old layout.new (string_part (codes ".shstrtab") (layout.old.names.items ++ ended (codes ".shstrtab")) ∷ [])) }
{
    let name_at = name_place(&layout.names, b".shstrtab")?;
    put_name(&mut layout.names, b".shstrtab")?;
    let fields = Fields {
        kind: 3,
        flags: 0,
        address: 0,
        size: layout.names.len() as u64,
        link: 0,
        info: 0,
        align: 0,
        entry_size: 0,
    };
    let place = layout.bytes.len() as u64;
    put_section_header(&mut layout.headers, name_at, place, &fields)?;
    put_padded(&mut layout.bytes, &layout.names)?;
    Ok(())
}

// e_ident, e_type, e_machine, e_version, e_entry and e_phoff.
fn put_kind(out: &mut Vec<u8>) -> Result<(), NoMemory>
    ensures { OnOk result (out.new.items ≡ out.old.items ++ (identification ++ object_kind)) }
{
    put(
        out,
        &[0x7f, b'E', b'L', b'F', 2, 1, 1, 0, 0, 0, 0, 0, 0, 0, 0, 0],
    )?;
    put_u16(out, 1)?;
    put_u16(out, 62)?;
    put_u32(out, 1)?;
    put_u64(out, 0)?;
    put_u64(out, 0)?;
    Ok(())
}

// What the ELF header says of its tables: the section headers stand at `place` and are `count`.
fn put_tables(out: &mut Vec<u8>, place: u64, count: u16) -> Result<(), NoMemory>
    requires { 0 < count }
    ensures { OnOk result (out.new.items ≡ out.old.items ++ object_tables place count) }
{
    put_u64(out, place)?;
    put_u32(out, 0)?;
    put_u16(out, 64)?;
    put_u16(out, 0)?;
    put_u16(out, 0)?;
    put_u16(out, 64)?;
    put_u16(out, count)?;
    put_u16(out, count - 1)?;
    Ok(())
}

// The ELF header of an object.
fn header(alloc: Global, place: u64, count: u16) -> Result<Vec<u8>, NoMemory>
    requires { 0 < count }
    ensures { IfOk result (λ header. header.items ≡ object_header place count) }
{
    let mut out = Vec::new(alloc);
    put_kind(&mut out)?;
    put_tables(&mut out, place, count)?;
    Ok(out)
}

// The file: the ELF header in the room that stands before the sections' bytes, those, and the section headers.
fn finish(
    alloc: Global,
    mut bytes: Vec<u8>,
    headers: &[u8],
    count: u16,
) -> Result<Vec<u8>, NoMemory>
    requires some { 0 < count }
    requires room { 64 ≤ vec_len bytes }
    ensures { IfOk result (λ file. file.items ≡ object_header (vec_len bytes) count ++ (drop 64 bytes.items ++ headers.now)) }
{
    let header = header(alloc, bytes.len() as u64, count)?;
    put_front(&mut bytes, &header);
    put(&mut bytes, headers)?;
    Ok(bytes)
}

// The number in the file of the symbol table.
fn symtab_number(object: &Object) -> usize
    requires { length object.now.sections + count_by has_relocations object.now.sections + 5 ≤ 4096 }
    ensures { result ≡ symtab_number_of object.now }
{
    let sections = object.sections.as_slice();
    let relas = sections
        .iter()
        .filter(|s| !s.relocations.is_empty())
        .count();
    let notes = if object.notes.is_some() { 1 } else { 0 };
    sections.len() + notes + relas + 1
}

// What a section takes in the file: its bytes, its relocations and its name.
fn section_size(section: &Section) -> u64 {
    (section.relocations.len() as u64)
        .saturating_mul(24)
        .saturating_add(section.bytes.len() as u64)
        .saturating_add(section.name.len() as u64)
}

// Whether the bytes, the tables and the names of the file pass the limit.
fn passes_limit(object: &Object) -> bool {
    let mut size = object.notes.as_ref().map_or(0, |note| note.len() as u64);
    for section in object.sections.as_slice() {
        size = size.saturating_add(section_size(section));
    }
    for symbol in object.symbols.as_slice() {
        size = size
            .saturating_add(24)
            .saturating_add(symbol.name.len() as u64);
    }
    size > SIZE_LIMIT as u64
}

/// The file of an object: the header, then, each at a multiple of 8, the bytes of the sections in order, the note, the
/// relocations of each section, the symbol table, the names of symbols and of sections, and the section headers (gABI,
/// "Object Files").
///
/// Bytes, tables and names that together pass 1 GiB (1,073,741,824 bytes) are answered as want of memory before that memory
/// is taken. The time grows with the file.
pub fn write_object(alloc: Global, object: &Object) -> Result<Vec<u8>, NoMemory>
    requires { IsRegular object.now }
    ensures bytes { IfOk result (λ bytes. bytes.items ≡ written object.now) }
    // The bytes are a file of this object.
    ensures read_back { IfOk result (λ bytes. IsObjectFile bytes.items object.now) }
{
    if passes_limit(object) {
        return Err(NoMemory);
    }
    let mut layout = Layout::new(alloc)?;
    let symtab = symtab_number(object) as u32;
    let sections = object.sections.as_slice();
    add_sections(&mut layout, sections)?;
    add_note(&mut layout, &object.notes)?;
    add_relas(alloc, &mut layout, symtab, sections)?;
    add_symbols(alloc, &mut layout, symtab, object.symbols.as_slice())?;
    add_names(&mut layout)?;
    let file = finish(alloc, layout.bytes, &layout.headers, symtab as u16 + 3)?;
    Ok(file)
}
