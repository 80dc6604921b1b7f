//! The contents of symbol tables and relocation sections (gABI, "Symbol Table", "Relocation").

ghost use Rattle.std.specs.Prelude.{◌≡◌, ◌≤◌, ◌<◌, ◌^◌, ◌*◌, ◌+◌, ◌++◌, All, IfOk, OnOk, length, map, vec_len};
ghost use Rattle.std.specs.List.{flat_map};
ghost use Rattle.cet_elf.specs.Written.{is_local as is_local_bind, bind_number, kind_number, section_number, symbol_bytes, symbol_entries, rela_bytes, rela_table as rela_table_of, ended, locals_end as locals_end_of};
ghost use Rattle.cet_elf.specs.Layout.{entry_bytes};
ghost use Rattle.cet_elf.specs.Regular.{SymbolFits, RelaFits};

use crate::entries::SymbolEntry;
use crate::object::{Bind, Rela, Symbol, SymbolKind, SymbolPlace};
use crate::put::{name_place, put_name, put_u8, put_u16, put_u32, put_u64};
use cet_base::NoMemory;
use std::alloc::Global;

/// st_info: the binding in its upper half, the type in its lower.
pub fn symbol_info(bind: Bind, kind: SymbolKind) -> u8
    ensures { result ≡ bind_number bind * 16 + kind_number kind }
{
    let bind = match bind {
        Bind::Local => 0,
        Bind::Global => 16,
        Bind::Weak => 32,
    };
    let kind = match kind {
        SymbolKind::None => 0,
        SymbolKind::Object => 1,
        SymbolKind::Func => 2,
        SymbolKind::Section => 3,
    };
    bind + kind
}

// st_shndx.
fn section_index(place: SymbolPlace) -> u16
    requires { section_number place < 2 ^ 16 }
    ensures { result ≡ section_number place }
{
    match place {
        SymbolPlace::Undefined => 0,
        SymbolPlace::Absolute => 0xfff1,
        SymbolPlace::Common => 0xfff2,
        SymbolPlace::In(section) => section as u16 + 1,
    }
}

/// An entry of a symbol table, whose st_other is 0.
pub fn put_entry(table: &mut Vec<u8>, entry: SymbolEntry) -> Result<(), NoMemory>
    ensures table { OnOk result (table.new.items ≡ table.old.items ++ entry_bytes entry) }
    ensures fits { (entry.value < 2 ^ 64) × (entry.size < 2 ^ 64) }
{
    put_u32(table, entry.name)?;
    put_u8(table, entry.info)?;
    put_u8(table, 0)?;
    put_u16(table, entry.section)?;
    put_u64(table, entry.value)?;
    put_u64(table, entry.size)?;
    Ok(())
}

// The entry of a symbol, and its name.
fn put_symbol(table: &mut Vec<u8>, names: &mut Vec<u8>, symbol: &Symbol) -> Result<(), NoMemory>
    requires { section_number symbol.now.place < 2 ^ 16 }
    ensures table { OnOk result (table.new.items ≡ table.old.items ++ symbol_bytes (vec_len names.old) symbol.now) }
    ensures names { OnOk result (names.new.items ≡ names.old.items ++ ended symbol.now.name) }
    ensures fits { OnOk result (SymbolFits symbol.now) }
{
    let name = symbol.name.as_slice();
    let entry = SymbolEntry {
        name: name_place(names, name)?,
        info: symbol_info(symbol.bind, symbol.kind),
        section: section_index(symbol.place),
        value: symbol.value,
        size: symbol.size,
    };
    put_entry(table, entry)?;
    put_name(names, name)
}

/// The entries of symbols, and their names.
pub fn put_symbols(
    table: &mut Vec<u8>,
    names: &mut Vec<u8>,
    symbols: &[Symbol],
) -> Result<(), NoMemory>
    requires { All (λ s. section_number s.place < 2 ^ 16) symbols.now }
    ensures table { OnOk result (table.new.items ≡ table.old.items ++ symbol_entries (vec_len names.old) symbols.now) }
    ensures names { OnOk result (names.new.items ≡ names.old.items ++ flat_map ended (map (λ s. s.name) symbols.now)) }
    ensures fit { OnOk result (All SymbolFits symbols.now) }
{
    for symbol in symbols {
        put_symbol(table, names, symbol)?;
    }
    Ok(())
}

/// STB_LOCAL.
pub fn is_local(bind: Bind) -> bool
    ensures { result ≡ is_local_bind bind }
{
    matches!(bind, Bind::Local)
}

/// One more than the index of the last local symbol, and 0 without one.
pub fn locals_end(symbols: &[Symbol]) -> usize
    ensures value { result ≡ locals_end_of symbols.now }
    ensures bound { result ≤ length symbols.now }
{
    let mut end = 0;
    for (i, symbol) in symbols.iter().enumerate() {
        if is_local(symbol.bind) {
            end = i + 1;
        }
    }
    end
}

fn put_rela(table: &mut Vec<u8>, rela: &Rela) -> Result<(), NoMemory>
    ensures table { OnOk result (table.new.items ≡ table.old.items ++ rela_bytes rela.now) }
    ensures fits { OnOk result (RelaFits rela.now) }
{
    put_u64(table, rela.offset)?;
    put_u32(table, rela.kind)?;
    put_u32(table, rela.symbol)?;
    put_u64(table, rela.addend.cast_unsigned())?;
    Ok(())
}

/// The entries of relocations.
pub fn rela_table(alloc: Global, relocations: &[Rela]) -> Result<Vec<u8>, NoMemory>
    ensures table { IfOk result (λ table. table.items ≡ rela_table_of relocations.now) }
    ensures fit { IfOk result (λ table. All RelaFits relocations.now) }
{
    let mut table = Vec::new(alloc);
    for rela in relocations {
        put_rela(&mut table, rela)?;
    }
    Ok(table)
}
