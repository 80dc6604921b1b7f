//! The tables of an executable that are in no segment: its symbols, their names, and the names of its sections.

ghost use Rattle.std.specs.Prelude.{◌≡◌, ◌≤◌, ◌<◌, ◌^◌, ◌+◌, ◌++◌, [], ◌∷◌, IfOk, OnOk, All, length, replicate, map, codes, position};
ghost use Rattle.std.specs.List.{flat_map};
ghost use Rattle.cet_elf.specs.ObjectSymbols.{null_symbol};
ghost use Rattle.cet_elf.specs.Layout.{part_with};
ghost use Rattle.cet_elf.specs.Written.{ended, section_number, symbol_bytes, symbol_entries, symbol_table as symbol_table_of, symbol_names, symbol_part, string_part, locals_end as locals_end_of};
ghost use Rattle.cet_exec.specs.Regular.{SymbolFits};
ghost use Rattle.cet_exec.specs.Written.{gap, aligned, spaced, laid, contents, is_stored_in as is_stored_at, file_symbol, file_symbols, symtab_number, symbol_parts};
ghost use Rattle.cet_exec.specs.Layout.{AddsPart, AddsParts};

use crate::layout::{Layout, put_at};
use cet_base::NoMemory;
use cet_elf::entries::SymbolEntry;
use cet_elf::layout::{Fields, put_section_header};
use cet_elf::put::{name_place, put, put_name};
use cet_elf::tables::{is_local, put_entry, symbol_info};
use cet_elf::{Exec, ExecSegment, ExecSymbol};
use std::alloc::Global;

// The segment stores a byte at this address.
fn is_stored_in(segment: &ExecSegment, address: u64) -> bool
    ensures { result ≡ is_stored_at address segment.now }
{
    segment.start <= address && address - segment.start < segment.bytes.len() as u64
}

// The number of the first segment that stores a byte at this address.
fn first_storing(segments: &[ExecSegment], address: u64) -> Option<usize>
    ensures { result ≡ position (is_stored_at address) segments.now }
{
    segments.iter().position(|s| is_stored_in(s, address))
}

// st_shndx: the section of the first segment that stores a byte at the symbol's value, or SHN_ABS.
fn section_index(segments: &[ExecSegment], symbol: &ExecSymbol) -> u16
    requires { length segments.now ≤ 16 }
    ensures { result ≡ section_number (file_symbol segments.now symbol.now).place }
{
    match first_storing(segments, symbol.value) {
        Some(number) => number as u16 + 1,
        None => 0xfff1,
    }
}

// The entry of a symbol, and its name.
fn put_symbol(
    table: &mut Vec<u8>,
    names: &mut Vec<u8>,
    segments: &[ExecSegment],
    symbol: &ExecSymbol,
) -> Result<(), NoMemory>
    requires { length segments.now ≤ 16 }
    ensures table { OnOk result (table.new.items ≡ table.old.items ++ symbol_bytes (length names.old.items) (file_symbol segments.now symbol.now)) }
    ensures names { OnOk result (names.new.items ≡ names.old.items ++ ended symbol.now.name) }
    ensures fits { OnOk result (SymbolFits symbol.now) }
{
    let name = symbol.name.as_slice();
    let entry = SymbolEntry {
        name: name_place(names, name)?,
        info: symbol_info(symbol.bind, symbol.kind),
        section: section_index(segments, symbol),
        value: symbol.value,
        size: symbol.size,
    };
    put_entry(table, entry)?;
    put_name(names, name)
}

// The entries of the symbols, and their names.
fn put_symbols(
    table: &mut Vec<u8>,
    names: &mut Vec<u8>,
    segments: &[ExecSegment],
    symbols: &[ExecSymbol],
) -> Result<(), NoMemory>
    requires { length segments.now ≤ 16 }
    ensures table { OnOk result (table.new.items ≡ table.old.items ++ symbol_entries (length names.old.items) (map (file_symbol segments.now) symbols.now)) }
    ensures names { OnOk result (names.new.items ≡ names.old.items ++ flat_map ended (map (λ s. s.name) (map (file_symbol segments.now) symbols.now))) }
    ensures fit { OnOk result (All SymbolFits symbols.now) }
{
    for symbol in symbols {
        put_symbol(table, names, segments, symbol)?;
    }
    Ok(())
}

// The contents of the symbol table and of the table of its names.
fn symbol_tables(alloc: Global, exec: &Exec) -> Result<(Vec<u8>, Vec<u8>), NoMemory>
    requires { length exec.now.segments ≤ 16 }
    ensures table { IfOk result (λ tables. tables.0.items ≡ symbol_table_of (file_symbols exec.now)) }
    ensures names { IfOk result (λ tables. tables.1.items ≡ symbol_names (file_symbols exec.now)) }
    ensures fit { IfOk result (λ tables. All SymbolFits exec.now.symbols) }
{
    let mut table = Vec::new(alloc);
    put(&mut table, &[0; 24])?;
    let mut names = Vec::new(alloc);
    put(&mut names, b"\0")?;
    let segments = exec.segments.as_slice();
    put_symbols(&mut table, &mut names, segments, exec.symbols.as_slice())?;
    Ok((table, names))
}

// One more than the index of the last local symbol, where the null one is local and has index 0.
fn locals_end(exec: &Exec) -> usize
    requires { length exec.now.symbols + 1 < 2 ^ 32 }
    ensures value { result ≡ locals_end_of (file_symbols exec.now) }
    ensures bound { result ≤ length exec.now.symbols + 1 }
{
    let symbols = exec.symbols.as_slice();
    let mut end = 1;
    for (i, symbol) in symbols.iter().enumerate() {
        if is_local(symbol.bind) {
            end = i + 2;
        }
    }
    end
}

// A section that is in no segment.
fn add_table(
    layout: &mut Layout,
    name: &[u8],
    content: &[u8],
    fields: Fields,
) -> Result<(), NoMemory>
    ensures { OnOk result (AddsPart layout.old layout.new (part_with name.now content.now fields)) }
{
    let place = layout.put(8, content)?;
    layout.add(name, place, fields)?;
    Ok(())
}

// The symbol table, which is section `symtab` of the file.
fn add_symbol_table(
    layout: &mut Layout,
    symtab: u32,
    exec: &Exec,
    table: &[u8],
) -> Result<(), NoMemory>
    requires link { symtab + 1 < 2 ^ 32 }
    requires few { length exec.now.symbols + 1 < 2 ^ 32 }
    requires content { table.now ≡ symbol_table_of (file_symbols exec.now) }
    ensures { OnOk result (AddsPart layout.old layout.new (symbol_part symtab (file_symbols exec.now))) }
{
    let fields = Fields {
        kind: 2,
        flags: 0,
        address: 0,
        size: table.len() as u64,
        link: symtab + 1,
        info: locals_end(exec) as u32,
        align: 8,
        entry_size: 24,
    };
    add_table(layout, b".symtab", table, fields)
}

// The section header of a string table of this size.
fn string_fields(size: u64) -> Fields
    ensures { result ≡ record { kind = 3; flags = 0; address = 0; size = size; link = 0; info = 0; align = 0; entry_size = 0 } }
{
    Fields {
        kind: 3,
        flags: 0,
        address: 0,
        size,
        link: 0,
        info: 0,
        align: 0,
        entry_size: 0,
    }
}

// A string table.
fn add_strings(layout: &mut Layout, name: &[u8], table: &[u8]) -> Result<(), NoMemory>
    ensures { OnOk result (AddsPart layout.old layout.new (string_part name.now table.now)) }
{
    let fields = string_fields(table.len() as u64);
    add_table(layout, name, table, fields)
}

// The symbol table, which is section `symtab` of the file, and the names of the symbols.
pub fn add_symbols(
    alloc: Global,
    layout: &mut Layout,
    symtab: u32,
    exec: &Exec,
) -> Result<(), NoMemory>
    requires number { symtab ≡ symtab_number exec.now }
    requires few_segments { length exec.now.segments ≤ 16 }
    requires few_symbols { length exec.now.symbols + 1 < 2 ^ 32 }
    ensures adds { OnOk result (AddsParts layout.old layout.new (symbol_parts exec.now)) }
    ensures fit { OnOk result (All SymbolFits exec.now.symbols) }
{
    let (table, names) = symbol_tables(alloc, exec)?;
    add_symbol_table(layout, symtab, exec, &table)?;
    add_strings(layout, b".strtab", &names)?;
    Ok(())
}

// The names of sections, their own among them.
pub fn add_names(layout: &mut Layout) -> Result<(), NoMemory>
    ensures { OnOk result (AddsPart layout.old layout.new (string_part (codes ".shstrtab") (layout.old.names.items ++ ended (codes ".shstrtab")))) }
{
    let name_at = name_place(&layout.names, b".shstrtab")?;
    put_name(&mut layout.names, b".shstrtab")?;
    let fields = string_fields(layout.names.len() as u64);
    let place = put_at(&mut layout.bytes, 8, &layout.names)?;
    put_section_header(&mut layout.headers, name_at, place, &fields)?;
    Ok(())
}
