//! The symbols of an executable.

ghost use Rattle.std.specs.Prelude.{◌≡◌, ◌+◌, ◌≤◌, ◌<◌, Some, length, IfOk};
ghost use Rattle.cet_elf.specs.Below.{first_below};
ghost use Rattle.cet_elf.specs.Faults.{Finds};
ghost use Rattle.cet_elf.specs.Sections.{HasSections};
ghost use Rattle.cet_elf.specs.ObjectSymbols.{symbol_table, symbol_count, symbol_names, symbol_place, symbol_at};
ghost use Rattle.cet_exec.specs.ExecSymbols.{symbols_faults, is_plain as is_plain_in, is_kept as is_kept_in, symbol_of as symbol_in, symbols_of};

use cet_base::NoMemory;
use cet_elf::entries::{SymbolEntry, symbol_entry};
use cet_elf::header::demand;
use cet_elf::names::Names;
use cet_elf::room::Room;
use cet_elf::sections::{section, section_count, string_table};
use cet_elf::symbols::{bind_of, kind_of};
use cet_elf::{ElfError, ExecSymbol, ExecSymbolList};

// The first section that is a symbol table, SHT_SYMTAB.
#[tactic(auto, unfolding(cet_elf::specs::ObjectSymbols::symbol_table))]
pub fn find_table(bytes: &[u8]) -> Option<u32>
    requires { HasSections bytes.now }
    ensures { result ≡ symbol_table bytes.now }
{
    for i in 0..section_count(bytes) {
        if section(bytes, i).kind == 2 {
            return Some(i);
        }
    }
    None
}

// How many entries the symbol table has, which is section `table`.
#[tactic(auto, using(crate::proofs::SymbolTables::counts))]
fn entry_count(bytes: &[u8], table: u32) -> u64
    requires sections { HasSections bytes.now }
    requires table { symbol_table bytes.now ≡ Some table }
    ensures { result ≡ symbol_count bytes.now }
{
    section(bytes, table).size / 24
}

// The names of its symbols.
#[tactic(auto, using(cet_elf::proofs::SymbolLemmas::tables))]
fn names_of(bytes: &[u8], table: u32) -> Names
    requires sections { HasSections bytes.now }
    requires table { symbol_table bytes.now ≡ Some table }
    ensures { result.table.now ≡ symbol_names bytes.now }
{
    Names::new(string_table(bytes, section(bytes, table).link))
}

// Where its entry k stands.
#[tactic(auto, using(cet_elf::proofs::SymbolLemmas::tables))]
fn entry_place(bytes: &[u8], table: u32, k: u64) -> u64
    requires sections { HasSections bytes.now }
    requires table { symbol_table bytes.now ≡ Some table }
    requires there { k < symbol_count bytes.now }
    ensures place { result ≡ symbol_place bytes.now k }
    ensures inside { result + 24 ≤ length bytes.now }
{
    section(bytes, table).offset + 24 * k
}

// Its entry k.
fn entry(bytes: &[u8], table: u32, k: u64) -> SymbolEntry
    requires sections { HasSections bytes.now }
    requires table { symbol_table bytes.now ≡ Some table }
    requires there { k < symbol_count bytes.now }
    ensures { result ≡ symbol_at bytes.now k }
{
    symbol_entry(bytes, entry_place(bytes, table, k))
}

// Each entry of the symbol table has a name.
#[tactic(auto, using(cet_elf::proofs::FaultLemmas::checks, cet_elf::proofs::BelowLemmas::loops), unfolding(crate::specs::ExecSymbols::symbols_faults))]
fn check_entries(bytes: &[u8], table: u32) -> Result<(), ElfError>
    requires sections { HasSections bytes.now }
    requires table { symbol_table bytes.now ≡ Some table }
    ensures { Finds result (symbols_faults bytes.now) }
{
    let names = names_of(bytes, table);
    for k in 0..entry_count(bytes, table) {
        let at = entry_place(bytes, table, k);
        demand(
            names.has(entry(bytes, table, k).name),
            ElfError::Name { at },
        )?;
    }
    Ok(())
}

// The symbols, whose table is section `table`, if there is one.
#[tactic(auto, using(crate::proofs::SymbolTables::counts), unfolding(crate::specs::ExecSymbols::symbols_faults))]
pub fn check_symbols(bytes: &[u8], table: Option<u32>) -> Result<(), ElfError>
    requires sections { HasSections bytes.now }
    requires table { symbol_table bytes.now ≡ table }
    ensures { Finds result (symbols_faults bytes.now) }
{
    match table {
        Some(table) => check_entries(bytes, table),
        None => Ok(()),
    }
}

// Its type and binding are those of a symbol that is kept, and it is defined.
fn is_plain(e: SymbolEntry) -> bool
    ensures { result ≡ is_plain_in e }
{
    e.info % 16 < 3 && e.info / 16 < 3 && e.section != 0
}

// The entry is kept. Its name is looked at last.
fn is_kept(bytes: &[u8], names: Names, e: SymbolEntry) -> bool
    requires { names.table.now ≡ symbol_names bytes.now }
    ensures { result ≡ is_kept_in bytes.now e }
{
    is_plain(e) && !names.name(e.name).is_empty()
}

// The entry as a value.
#[tactic(auto, unfolding(crate::specs::ExecSymbols::symbol_of))]
fn symbol_of(
    room: &mut Room,
    bytes: &[u8],
    names: Names,
    e: SymbolEntry,
) -> Result<ExecSymbol, NoMemory>
    requires { names.table.now ≡ symbol_names bytes.now }
    ensures { IfOk result (λ s. s ≡ symbol_in bytes.now e) }
{
    Ok(ExecSymbol {
        name: room.copy(names.name(e.name))?,
        kind: kind_of(e.info % 16),
        bind: bind_of(e.info / 16),
        value: e.value,
        size: e.size,
    })
}

// The entries of the symbol table that are kept.
#[tactic(auto, unfolding(crate::specs::ExecSymbols::symbols_of))]
fn read_entries(room: &mut Room, bytes: &[u8], table: u32) -> Result<ExecSymbolList, NoMemory>
    requires sections { HasSections bytes.now }
    requires table { symbol_table bytes.now ≡ Some table }
    ensures { IfOk result (λ symbols. symbols ≡ symbols_of bytes.now) }
{
    let names = names_of(bytes, table);
    let mut symbols = ExecSymbolList::new(room.alloc());
    for k in 0..entry_count(bytes, table) {
        let e = entry(bytes, table, k);
        if is_kept(bytes, names, e) {
            symbols.push(symbol_of(room, bytes, names, e)?)?;
        }
    }
    Ok(symbols)
}

// The symbols, whose table is section `table`, if there is one.
#[tactic(auto, using(crate::proofs::SymbolTables::counts), unfolding(crate::specs::ExecSymbols::symbols_of))]
pub fn read_symbols(
    room: &mut Room,
    bytes: &[u8],
    table: Option<u32>,
) -> Result<ExecSymbolList, NoMemory>
    requires sections { HasSections bytes.now }
    requires table { symbol_table bytes.now ≡ table }
    ensures { IfOk result (λ symbols. symbols ≡ symbols_of bytes.now) }
{
    match table {
        Some(table) => read_entries(room, bytes, table),
        None => Ok(ExecSymbolList::new(room.alloc())),
    }
}
