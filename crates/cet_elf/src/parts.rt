//! The sections of an object, laid out as those of a file.

ghost use Rattle.std.specs.Prelude.{◌≡◌, ◌≤◌, ◌<◌, ◌^◌, ◌+◌, ◌∷◌, [], ◌++◌, IfOk, OnOk, All, length, drop, map, codes, vec_len};
ghost use Rattle.cet_elf.specs.Written.{type_of, flags_of, section_part, note_parts, relas_of, rela_parts, symbol_table, symbol_part, symbol_names, string_part, section_number};
ghost use Rattle.cet_elf.specs.Layout.{Adds, part_with};
ghost use Rattle.cet_elf.specs.Regular.{SymbolFits, RelaFits};

use crate::layout::{Fields, Layout};
use crate::object::{Class, Section, Symbol};
use crate::put::put;
use crate::tables::{locals_end, put_symbols, rela_table};
use cet_base::{Bytes, NoMemory};
use std::alloc::Global;

// The type and flags of the section of a file that has this class.
fn kind_and_flags(class: Class) -> (u32, u64)
    ensures kind { result.0 ≡ type_of class }
    ensures flags { result.1 ≡ flags_of class }
{
    match class {
        Class::Code => (1, 6),
        Class::Read => (1, 2),
        Class::Write => (1, 3),
        Class::Zero => (8, 3),
        Class::Group => (17, 0),
    }
}

// The fields of a section without entries that names no other section.
fn plain_fields(kind: u32, flags: u64, size: u64, align: u64) -> Fields
    ensures fields { result ≡ record { kind = kind; flags = flags; address = 0; size = size; link = 0; info = 0; align = align; entry_size = 0 } }
    ensures fits { size < 2 ^ 64 }
{
    Fields {
        kind,
        flags,
        address: 0,
        size,
        link: 0,
        info: 0,
        align,
        entry_size: 0,
    }
}

// The section header of a section of the object.
fn section_fields(section: &Section) -> Fields
    ensures part { part_with section.now.name section.now.bytes result ≡ section_part section.now }
    ensures fits { section.now.size < 2 ^ 64 }
{
    let (kind, flags) = kind_and_flags(section.class);
    plain_fields(kind, flags, section.size, section.align)
}

// The sections of the object.
pub fn add_sections(layout: &mut Layout, sections: &[Section]) -> Result<(), NoMemory>
    ensures parts { OnOk result (Adds layout.old layout.new (map section_part sections.now)) }
    ensures fit { OnOk result (All (λ s. s.size < 2 ^ 64) sections.now) }
{
    for section in sections {
        let fields = section_fields(section);
        layout.add(section.name.as_slice(), section.bytes.as_slice(), fields)?;
    }
    Ok(())
}

// The property note, where there is one.
pub fn add_note(layout: &mut Layout, notes: &Option<Bytes>) -> Result<(), NoMemory>
    ensures { OnOk result (Adds layout.old layout.new (note_parts notes.now)) }
{
    if let Some(bytes) = notes {
        let fields = plain_fields(7, 2, bytes.len() as u64, 8);
        layout.add(b".note.gnu.property", bytes.as_slice(), fields)?;
    }
    Ok(())
}

// The relocation section of the section that has this number in the object, where that has relocations.
fn add_rela(
    alloc: Global,
    layout: &mut Layout,
    symtab: u32,
    number: u32,
    section: &Section,
) -> Result<(), NoMemory>
    requires { number + 1 < 2 ^ 32 }
    ensures parts { OnOk result (Adds layout.old layout.new (relas_of symtab number section.now)) }
    ensures fit { OnOk result (All RelaFits section.now.relocations) }
{
    if section.relocations.is_empty() {
        return Ok(());
    }
    let mut name = Vec::new(alloc);
    put(&mut name, b".rela")?;
    put(&mut name, section.name.as_slice())?;
    let table = rela_table(alloc, section.relocations.as_slice())?;
    let fields = Fields {
        kind: 4,
        flags: 0,
        address: 0,
        size: table.len() as u64,
        link: symtab,
        info: number + 1,
        align: 8,
        entry_size: 24,
    };
    layout.add(&name, &table, fields)
}

// The relocation sections, one for each section that has relocations.
pub fn add_relas(
    alloc: Global,
    layout: &mut Layout,
    symtab: u32,
    sections: &[Section],
) -> Result<(), NoMemory>
    requires { length sections.now < 2 ^ 32 }
    ensures parts { OnOk result (Adds layout.old layout.new (rela_parts symtab sections.now)) }
    ensures fit { OnOk result (All (λ s. All RelaFits s.relocations) sections.now) }
{
    for (number, section) in sections.iter().enumerate() {
        add_rela(alloc, layout, symtab, number as u32, section)?;
    }
    Ok(())
}

// A string table.
fn add_strings(layout: &mut Layout, name: &[u8], table: &[u8]) -> Result<(), NoMemory>
    ensures { OnOk result (Adds layout.old layout.new (string_part name.now table.now ∷ [])) }
{
    let fields = plain_fields(3, 0, table.len() as u64, 0);
    layout.add(name, table, fields)
}

// The contents of the symbol table and of the table of its names.
fn symbol_tables(alloc: Global, symbols: &[Symbol]) -> Result<(Vec<u8>, Vec<u8>), NoMemory>
    requires some { 0 < length symbols.now }
    requires places { All (λ s. section_number s.place < 2 ^ 16) symbols.now }
    ensures table { IfOk result (λ tables. tables.0.items ≡ symbol_table symbols.now) }
    ensures names { IfOk result (λ tables. tables.1.items ≡ symbol_names symbols.now) }
    ensures fit { IfOk result (λ tables. All SymbolFits (drop 1 symbols.now)) }
{
    let mut table = Vec::new(alloc);
    put(&mut table, &[0; 24])?;
    let mut names = Vec::new(alloc);
    put(&mut names, b"\0")?;
    put_symbols(&mut table, &mut names, &symbols[1..])?;
    Ok((table, names))
}

// The symbol table.
fn add_symbol_table(
    layout: &mut Layout,
    symtab: u32,
    symbols: &[Symbol],
    table: &[u8],
) -> Result<(), NoMemory>
    requires link { symtab + 1 < 2 ^ 32 }
    requires few { length symbols.now < 2 ^ 32 }
    requires content { table.now ≡ symbol_table symbols.now }
    ensures { OnOk result (Adds layout.old layout.new (symbol_part symtab symbols.now ∷ [])) }
{
    let fields = Fields {
        kind: 2,
        flags: 0,
        address: 0,
        size: table.len() as u64,
        link: symtab + 1,
        info: locals_end(symbols) as u32,
        align: 8,
        entry_size: 24,
    };
    layout.add(b".symtab", table, fields)
}

// The symbol table and the names of the symbols.
pub fn add_symbols(
    alloc: Global,
    layout: &mut Layout,
    symtab: u32,
    symbols: &[Symbol],
) -> Result<(), NoMemory>
    requires link { symtab + 1 < 2 ^ 32 }
    requires some { 0 < length symbols.now }
    requires few { length symbols.now < 2 ^ 32 }
    requires places { All (λ s. section_number s.place < 2 ^ 16) symbols.now }
    ensures parts { OnOk result (Adds layout.old layout.new (symbol_part symtab symbols.now ∷ string_part (codes ".strtab") (symbol_names symbols.now) ∷ [])) }
    ensures fit { OnOk result (All SymbolFits (drop 1 symbols.now)) }
{
    let (table, names) = symbol_tables(alloc, symbols)?;
    add_symbol_table(layout, symtab, symbols, &table)?;
    add_strings(layout, b".strtab", &names)?;
    Ok(())
}
