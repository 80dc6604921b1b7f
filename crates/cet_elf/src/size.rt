//! How many bytes the names and bytes of an object have together, told before memory is taken for them. The sums stop behind
//! the limit, so that the time is that of the names which are given.

ghost use Rattle.std.specs.Prelude.{◌≡◌, ◌<◌, Some};
ghost use Rattle.cet_elf.specs.Header.{section_count as count_of};
ghost use Rattle.cet_elf.specs.Sections.{HasSections};
ghost use Rattle.cet_elf.specs.ObjectSymbols.{symbol_table, symbol_count};

use crate::entries::symbol_entry;
use crate::names::Names;
use crate::room::MOST;
use crate::sections::{section, section_count, section_names, stored_size, string_table};
use crate::support::{is_kept, is_note};
use crate::symbols::{entry_place, is_file};

// What a section takes: its name and its bytes, where it is kept or is the note.
fn section_size(bytes: &[u8], names: Names, index: u32) -> u64
    requires sections { HasSections bytes.now }
    requires there { index < count_of bytes.now }
{
    if !is_kept(bytes, index) && !is_note(bytes, index) {
        return 0;
    }
    let s = section(bytes, index);
    stored_size(s).saturating_add(names.name(s.name).len() as u64)
}

// What the sections take.
fn sections_size(bytes: &[u8]) -> u64
    requires { HasSections bytes.now }
{
    let names = Names::new(section_names(bytes));
    let mut size = 0u64;
    for i in 0..section_count(bytes) {
        if size <= MOST as u64 {
            size = size.saturating_add(section_size(bytes, names, i));
        }
    }
    size
}

// What entry k of the symbol table, which is section `table`, takes: its name, where it is kept.
fn symbol_size(bytes: &[u8], names: Names, table: u32, k: u32) -> u64
    requires sections { HasSections bytes.now }
    requires table { symbol_table bytes.now ≡ Some table }
    requires there { k < symbol_count bytes.now }
{
    let e = symbol_entry(bytes, entry_place(bytes, table, k));
    if k == 0 || is_file(e) {
        return 0;
    }
    names.name(e.name).len() as u64
}

// What the symbols take, of which there are `count`, and `size` bytes besides.
#[tactic(auto, using(crate::proofs::SymbolLemmas::tables))]
fn with_symbols(bytes: &[u8], table: u32, count: u32, mut size: u64) -> u64
    requires sections { HasSections bytes.now }
    requires table { symbol_table bytes.now ≡ Some table }
    requires count { count ≡ symbol_count bytes.now }
{
    let names = Names::new(string_table(bytes, section(bytes, table).link));
    for k in 0..count {
        if size <= MOST as u64 {
            size = size.saturating_add(symbol_size(bytes, names, table, k));
        }
    }
    size
}

// Whether the names and bytes of the object, whose symbol table is section `table`, if there is one, pass the limit.
#[tactic(auto, using(crate::proofs::SymbolLemmas::tables), unfolding(crate::specs::ObjectSymbols::symbol_count))]
pub fn passes_limit(bytes: &[u8], table: Option<u32>) -> bool
    requires sections { HasSections bytes.now }
    requires table { table ≡ symbol_table bytes.now }
{
    let size = sections_size(bytes);
    let Some(table) = table else {
        return size > MOST as u64;
    };
    let count = section(bytes, table).size / 24;
    // A table with more entries is refused before any of them is looked at.
    if count > 65_536 {
        return size > MOST as u64;
    }
    with_symbols(bytes, table, count as u32, size) > MOST as u64
}
