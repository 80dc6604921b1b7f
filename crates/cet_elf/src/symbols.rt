//! The symbol table of an object.

ghost use Rattle.std.specs.Prelude.{◌≡◌, ◌+◌, ◌≤◌, ◌<◌, ◌^◌, ◌∷◌, [], ◌++◌, true, false, if◌then◌else◌, is_some, option_to_list, length, IfOk, OnOk};
ghost use Rattle.cet_elf.specs.Below.{each_below};
ghost use Rattle.cet_elf.specs.Faults.{Finds, Reads};
ghost use Rattle.cet_elf.specs.Header.{section_count as count_of};
ghost use Rattle.cet_elf.specs.Sections.{HasSections, string_table};
ghost use Rattle.cet_elf.specs.StringTable.{has_name, name_at};
ghost use Rattle.cet_elf.specs.Entries.{is_file as is_file_in, symbol_type, symbol_bind};
ghost use Rattle.cet_elf.specs.ObjectSymbols.{symbol_table, symbol_count, symbol_names, symbol_place as place_at, symbol_at, symbol_faults, symbols_faults, entry_faults, is_supported_symbol as supports, is_section_index as is_index, is_kept_symbol, kind_of as kind_in, bind_of as bind_in, place_of as place_in, value_of as value_in, symbol_of as symbol_in, symbol_value, null_symbol as null};
ghost use Rattle.cet_elf.specs.Numbers.{section_numbers, AreSymbols};

use crate::entries::{SymbolEntry, symbol_entry};
use crate::error::ElfError;
use crate::header::demand;
use crate::names::Names;
use crate::object::{Bind, Symbol, SymbolKind, SymbolList, SymbolPlace};
use crate::room::Room;
use crate::sections::{section, section_count, section_place, string_table as table_of};
use crate::support::is_kept;
use cet_base::{NoMemory, Text};
use std::alloc::{AllocError, Global};

/// The symbols of an object, and for each entry of the symbol table its number among them, unless it is dropped.
#[derive(Drop)]
pub struct Symbols {
    pub list: SymbolList,
    pub numbers: Vec<Option<u32>>,
}

impl Symbols {
    pub fn new(alloc: Global) -> Self
        ensures list { result.list ≡ [] }
        ensures numbers { result.numbers.items ≡ [] }
    {
        Symbols {
            list: SymbolList::new(alloc),
            numbers: Vec::new(alloc),
        }
    }

    // Adds the next entry, which is this symbol, or is dropped.
    fn add(&mut self, symbol: Option<Symbol>) -> Result<(), NoMemory>
        requires { length self.old.list < 2 ^ 32 }
        ensures list { OnOk result (self.new.list ≡ self.old.list ++ option_to_list symbol) }
        ensures numbers { OnOk result (self.new.numbers.items ≡ self.old.numbers.items ++ (if is_some symbol then Some (length self.old.list) else None) ∷ []) }
    {
        match symbol {
            Some(symbol) => {
                self.numbers.push(Some(self.list.len() as u32))?;
                self.list.push(symbol)?;
            }
            None => self.numbers.push(None)?,
        }
        Ok(())
    }
}

/// STT_FILE.
pub fn is_file(e: SymbolEntry) -> bool
    ensures { result ≡ is_file_in e }
{
    e.info % 16 == 4
}

// The type and binding of a symbol that is no file.
fn is_supported(e: SymbolEntry) -> bool
    ensures { result ≡ supports e }
{
    e.info % 16 < 4 && e.info / 16 < 3
}

fn is_section_index(bytes: &[u8], index: u16) -> bool
    requires { 64 ≤ length bytes.now }
    ensures { result ≡ is_index bytes.now index }
{
    u32::from(index) < section_count(bytes) || index == 0xfff1 || index == 0xfff2
}

/// What a symbol of this type names, where the type is below 4 (gABI, "Symbol Table").
#[tactic(auto, unfolding(crate::specs::ObjectSymbols::kind_of))]
pub fn kind_of(kind: u8) -> SymbolKind
    ensures { result ≡ kind_in kind }
{
    match kind {
        0 => SymbolKind::None,
        1 => SymbolKind::Object,
        2 => SymbolKind::Func,
        _ => SymbolKind::Section,
    }
}

/// Where a symbol of this binding is seen, where the binding is below 3 (gABI, "Symbol Table").
#[tactic(auto, unfolding(crate::specs::ObjectSymbols::bind_of))]
pub fn bind_of(bind: u8) -> Bind
    ensures { result ≡ bind_in bind }
{
    match bind {
        0 => Bind::Local,
        1 => Bind::Global,
        _ => Bind::Weak,
    }
}

// Where a symbol with this section index is: with the number of a kept section, by a look-up.
#[tactic(auto, unfolding(crate::specs::ObjectSymbols::place_of))]
fn place_of(bytes: &[u8], numbers: &[u32], index: u16) -> SymbolPlace
    requires sections { HasSections bytes.now }
    requires numbers { numbers.now ≡ section_numbers bytes.now }
    requires there { is_index bytes.now index ≡ true }
    ensures { result ≡ place_in bytes.now index }
{
    match index {
        0 => SymbolPlace::Undefined,
        0xfff1 => SymbolPlace::Absolute,
        0xfff2 => SymbolPlace::Common,
        _ if is_kept(bytes, u32::from(index)) => SymbolPlace::In(numbers[index as usize]),
        _ => SymbolPlace::Absolute,
    }
}

// Its value.
#[tactic(auto, unfolding(crate::specs::ObjectSymbols::value_of))]
fn value_of(bytes: &[u8], e: SymbolEntry) -> u64
    requires sections { HasSections bytes.now }
    requires there { is_index bytes.now e.section ≡ true }
    ensures { result ≡ value_in bytes.now e }
{
    match e.section {
        0 | 0xfff1 | 0xfff2 => e.value,
        index if is_kept(bytes, u32::from(index)) => e.value,
        _ => 0,
    }
}

// The entry as a value.
#[tactic(auto, unfolding(crate::specs::ObjectSymbols::symbol_of))]
fn symbol_of(
    room: &mut Room,
    bytes: &[u8],
    names: Names,
    numbers: &[u32],
    e: SymbolEntry,
) -> Result<Symbol, NoMemory>
    requires sections { HasSections bytes.now }
    requires names { names.table.now ≡ symbol_names bytes.now }
    requires numbers { numbers.now ≡ section_numbers bytes.now }
    requires there { is_index bytes.now e.section ≡ true }
    ensures { IfOk result (λ s. s ≡ symbol_in bytes.now e) }
{
    Ok(Symbol {
        name: room.copy(names.name(e.name))?,
        kind: kind_of(e.info % 16),
        bind: bind_of(e.info / 16),
        place: place_of(bytes, numbers, e.section),
        value: value_of(bytes, e),
        size: e.size,
    })
}

// The value that stands for entry 0.
fn null_symbol(alloc: Global) -> Symbol
    ensures { result ≡ null }
{
    Symbol {
        name: Text::new(alloc),
        kind: SymbolKind::None,
        bind: Bind::Local,
        place: SymbolPlace::Absolute,
        value: 0,
        size: 0,
    }
}

// The name, st_info and st_shndx of the entry at `at`.
#[tactic(auto, using(crate::proofs::FaultLemmas::checks), unfolding(crate::specs::ObjectSymbols::entry_faults))]
fn check_entry(bytes: &[u8], names: Names, at: u64, e: SymbolEntry) -> Result<(), ElfError>
    requires sections { HasSections bytes.now }
    requires names { names.table.now ≡ symbol_names bytes.now }
    requires place { at < 2 ^ 63 }
    ensures finds { Finds result (entry_faults bytes.now at e) }
    ensures index { OnOk result (is_file_in e ≡ false → is_index bytes.now e.section ≡ true) }
{
    demand(names.has(e.name), ElfError::Name { at })?;
    demand(
        is_file(e) || is_supported(e),
        ElfError::Unsupported { at: at + 4 },
    )?;
    let is_there = is_file(e) || is_section_index(bytes, e.section);
    if !is_there {
        return Err(ElfError::SymbolIndex { at: at + 6 });
    }
    Ok(())
}

/// Where entry k of the symbol table stands, which is section `table`.
#[tactic(auto, using(crate::proofs::SymbolLemmas::tables))]
pub fn entry_place(bytes: &[u8], table: u32, k: u32) -> u64
    requires sections { HasSections bytes.now }
    requires table { symbol_table bytes.now ≡ Some table }
    requires there { k < symbol_count bytes.now }
    ensures place { result ≡ place_at bytes.now k }
    ensures inside { result + 24 ≤ length bytes.now }
{
    section(bytes, table).offset + 24 * u64::from(k)
}

// The symbol of entry k of the symbol table, which is section `table`: none where it is dropped.
fn read_symbol(
    room: &mut Room,
    bytes: &[u8],
    names: Names,
    numbers: &[u32],
    table: u32,
    k: u32,
) -> Result<Option<Symbol>, ElfError>
    requires sections { HasSections bytes.now }
    requires names { names.table.now ≡ symbol_names bytes.now }
    requires numbers { numbers.now ≡ section_numbers bytes.now }
    requires table { symbol_table bytes.now ≡ Some table }
    requires there { k < symbol_count bytes.now }
    ensures { Reads (λ s. s) result (symbol_faults bytes.now k) (if is_kept_symbol bytes.now k then Some (symbol_value bytes.now k) else None) }
{
    if k == 0 {
        return Ok(Some(null_symbol(room.alloc())));
    }
    let at = entry_place(bytes, table, k);
    let e = symbol_entry(bytes, at);
    check_entry(bytes, names, at, e)?;
    if is_file(e) {
        return Ok(None);
    }
    let symbol = symbol_of(room, bytes, names, numbers, e)?;
    Ok(Some(symbol))
}

// The entries of the symbol table, which is section `table`.
#[tactic(auto, using(crate::proofs::BelowLemmas::loops, crate::proofs::SymbolLemmas::tables, crate::proofs::SymbolLemmas::reads))]
fn read_entries(
    room: &mut Room,
    bytes: &[u8],
    numbers: &[u32],
    table: u32,
    count: u32,
) -> Result<Symbols, ElfError>
    requires sections { HasSections bytes.now }
    requires numbers { numbers.now ≡ section_numbers bytes.now }
    requires table { symbol_table bytes.now ≡ Some table }
    requires count { count ≡ symbol_count bytes.now }
    requires few { count ≤ 65536 }
    ensures finds { Finds result (each_below (symbol_count bytes.now) (symbol_faults bytes.now)) }
    ensures symbols { IfOk result (λ s. AreSymbols bytes.now (symbol_count bytes.now) s) }
{
    let names = Names::new(table_of(bytes, section(bytes, table).link));
    let mut symbols = Symbols::new(room.alloc());
    for k in 0..count {
        let symbol = read_symbol(room, bytes, names, numbers, table, k)?;
        symbols.add(symbol)?;
    }
    Ok(symbols)
}

/// The symbols of the object, whose symbol table is section `table`, if there is one.
#[tactic(auto, using(crate::proofs::FaultLemmas::checks, crate::proofs::SymbolLemmas::tables), unfolding(crate::specs::ObjectSymbols::symbols_faults, crate::specs::ObjectSymbols::symbol_count))]
pub fn read_symbols(
    room: &mut Room,
    bytes: &[u8],
    numbers: &[u32],
    table: Option<u32>,
) -> Result<Symbols, ElfError>
    requires sections { HasSections bytes.now }
    requires numbers { numbers.now ≡ section_numbers bytes.now }
    requires table { table ≡ symbol_table bytes.now }
    ensures finds { Finds result (symbols_faults bytes.now) }
    ensures symbols { IfOk result (λ s. AreSymbols bytes.now (symbol_count bytes.now) s) }
{
    let Some(table) = table else {
        return Ok(Symbols::new(room.alloc()));
    };
    let count = section(bytes, table).size / 24;
    let at = section_place(bytes, table);
    demand(count <= 65_536, ElfError::TooMany { at })?;
    read_entries(room, bytes, numbers, table, count as u32)
}
