//! The relocation sections of an object.

ghost use Rattle.std.specs.Prelude.{◌≡◌, ◌+◌, ◌*◌, ◌≤◌, ◌<◌, ◌++◌, [], true, length, slice_index_or, None, IfOk, OnOk, vec_len};
ghost use Rattle.cet_elf.specs.Below.{each_below, sum_below};
ghost use Rattle.cet_elf.specs.Faults.{Finds, Reads};
ghost use Rattle.cet_elf.specs.Header.{section_count as count_of};
ghost use Rattle.cet_elf.specs.Sections.{section as section_at, HasSections};
ghost use Rattle.cet_elf.specs.Entries.{rela_entry as rela_entry_at};
ghost use Rattle.cet_elf.specs.ObjectRelocations.{is_rela_type as is_type, field_size as size_of_field, is_field_inside as is_inside, is_target as is_target_of, is_read_rela as is_read_at, rela_count, rela_place, rela_at, target_size, rela_faults, entry_faults, rela_section_faults, relocations_faults, rela_of, relas_in};
ghost use Rattle.cet_elf.specs.ObjectSymbols.{symbol_number as number_of};
ghost use Rattle.cet_elf.specs.Numbers.{symbol_numbers, AreRelocations};

use crate::entries::{RelaEntry, rela_entry};
use crate::error::ElfError;
use crate::header::demand;
use crate::object::{Rela, RelaList};
use crate::sections::{section, section_count, section_place, stored_size};
use crate::support::{is_loaded_at, is_note};
use cet_base::NoMemory;
use std::alloc::Global;

// How many relocation entries of an object are read at most.
const MOST: u64 = 1_000_000;

// The seven types that are read.
fn is_rela_type(kind: u32) -> bool
    ensures { result ≡ is_type kind }
{
    matches!(kind, 0 | 1 | 2 | 4 | 10 | 11 | 24)
}

// The size in bytes of the field of such a type.
fn field_size(kind: u32) -> u64
    ensures { result ≡ size_of_field kind }
{
    match kind {
        0 => 0,
        1 | 24 => 8,
        _ => 4,
    }
}

// The field lies in `size` bytes.
fn is_field_inside(kind: u32, offset: u64, size: u64) -> bool
    ensures { result ≡ is_inside kind offset size }
{
    kind == 0 || (field_size(kind) <= size && offset <= size - field_size(kind))
}

// The entries for this section are read: it is loaded, or it is the note.
fn is_target(bytes: &[u8], index: u32) -> bool
    requires { HasSections bytes.now }
    ensures { result ≡ is_target_of bytes.now index }
{
    is_loaded_at(bytes, index) || (index < section_count(bytes) && is_note(bytes, index))
}

// The section has relocation entries that are read.
#[tactic(auto, unfolding(crate::specs::ObjectRelocations::is_read_rela))]
fn is_read_rela(bytes: &[u8], index: u32) -> bool
    requires sections { HasSections bytes.now }
    requires there { index < count_of bytes.now }
    ensures { result ≡ is_read_at bytes.now index }
{
    let s = section(bytes, index);
    s.kind == 4 && is_target(bytes, s.info)
}

// The number of the symbol of entry k of the symbol table, by a look-up: none where there is no such entry, or it is
// dropped.
fn symbol_number(numbers: &[Option<u32>], k: u32) -> Option<u32>
    ensures { result ≡ slice_index_or numbers.now k None }
{
    numbers.get(k as usize).copied().flatten()
}

// The number of the symbol of a relocation entry at `at`, for a section of `size` stored bytes.
#[tactic(auto, using(crate::proofs::FaultLemmas::checks, crate::proofs::RelocationLemmas::symbols), unfolding(crate::specs::ObjectRelocations::rela_faults))]
fn check_rela(
    bytes: &[u8],
    numbers: &[Option<u32>],
    size: u64,
    at: u64,
    e: RelaEntry,
) -> Result<u32, ElfError>
    requires numbers { numbers.now ≡ symbol_numbers bytes.now }
    requires there { at + 24 ≤ length bytes.now }
    ensures { Reads (λ n. n) result (rela_faults bytes.now size at e) (number_of bytes.now e.symbol) }
{
    let value = e.kind;
    demand(
        is_rela_type(value),
        ElfError::RelaType { at: at + 8, value },
    )?;
    let Some(symbol) = symbol_number(numbers, e.symbol) else {
        return Err(ElfError::SymbolIndex { at: at + 8 });
    };
    demand(
        is_field_inside(value, e.offset, size),
        ElfError::Bounds { at },
    )?;
    Ok(symbol)
}

// The relocation entry at `at`, for a section of `size` stored bytes, as a value.
#[tactic(auto, unfolding(crate::specs::ObjectRelocations::rela_of))]
fn read_rela(bytes: &[u8], numbers: &[Option<u32>], size: u64, at: u64) -> Result<Rela, ElfError>
    requires numbers { numbers.now ≡ symbol_numbers bytes.now }
    requires there { at + 24 ≤ length bytes.now }
    ensures { Reads (λ r. r) result (rela_faults bytes.now size at (rela_entry_at bytes.now at)) (rela_of bytes.now (rela_entry_at bytes.now at)) }
{
    let e = rela_entry(bytes, at);
    let symbol = check_rela(bytes, numbers, size, at, e)?;
    Ok(Rela {
        offset: e.offset,
        kind: e.kind,
        symbol,
        addend: e.addend,
    })
}

// Adds the relocations of section `index`, which are read, to the list.
#[tactic(auto, using(crate::proofs::BelowLemmas::loops, crate::proofs::RelocationLemmas::places), unfolding(crate::specs::ObjectRelocations::relas_in))]
fn read_entries(
    bytes: &[u8],
    numbers: &[Option<u32>],
    index: u32,
    list: &mut RelaList,
) -> Result<(), ElfError>
    requires sections { HasSections bytes.now }
    requires numbers { numbers.now ≡ symbol_numbers bytes.now }
    requires there { index < count_of bytes.now }
    requires read { is_read_at bytes.now index ≡ true }
    ensures finds { Finds result (each_below (rela_count bytes.now index) (entry_faults bytes.now index)) }
    ensures added { OnOk result (list.new ≡ list.old ++ relas_in bytes.now index) }
{
    let s = section(bytes, index);
    let size = stored_size(section(bytes, s.info));
    for k in 0..s.size / 24 {
        let rela = read_rela(bytes, numbers, size, s.offset + 24 * k)?;
        list.push(rela)?;
    }
    Ok(())
}

// Adds the relocations of section `index` to the list of the section that they are for. The answer is how many entries
// were read, with the `before` that were read in the sections before.
#[tactic(auto, using(crate::proofs::FaultLemmas::checks, crate::proofs::RelocationLemmas::places, crate::proofs::RelocationLemmas::lists), unfolding(crate::specs::ObjectRelocations::rela_section_faults, crate::specs::ObjectRelocations::rela_count))]
fn read_section(
    bytes: &[u8],
    numbers: &[Option<u32>],
    index: u32,
    before: u64,
    lists: &mut Vec<RelaList>,
) -> Result<u64, ElfError>
    requires sections { HasSections bytes.now }
    requires numbers { numbers.now ≡ symbol_numbers bytes.now }
    requires there { index < count_of bytes.now }
    requires before { before ≡ sum_below index (rela_count bytes.now) }
    requires few { before ≤ 1000000 }
    requires lists { AreRelocations bytes.now index lists.old.items }
    ensures finds { Finds result (rela_section_faults bytes.now index) }
    ensures total { IfOk result (λ total. total ≡ sum_below (index + 1) (rela_count bytes.now)) }
    ensures few { IfOk result (λ total. total ≤ 1000000) }
    ensures lists { OnOk result (AreRelocations bytes.now (index + 1) lists.new.items) }
{
    if !is_read_rela(bytes, index) {
        return Ok(before);
    }
    let s = section(bytes, index);
    let total = before + s.size / 24;
    let at = section_place(bytes, index);
    demand(total <= MOST, ElfError::TooMany { at })?;
    read_entries(bytes, numbers, index, &mut lists[s.info as usize])?;
    Ok(total)
}

// An empty list for each section.
fn no_relocations(alloc: Global, bytes: &[u8]) -> Result<Vec<RelaList>, NoMemory>
    requires { HasSections bytes.now }
    ensures { IfOk result (λ lists. AreRelocations bytes.now 0 lists.items) }
{
    let mut lists = Vec::new(alloc);
    for i in 0..section_count(bytes) {
        lists.push(RelaList::new(alloc))?;
    }
    Ok(lists)
}

// For each section its relocations. The numbers of the symbols are looked up in `numbers`.
#[tactic(auto, using(crate::proofs::BelowLemmas::loops), unfolding(crate::specs::ObjectRelocations::relocations_faults))]
pub fn read_relocations(
    alloc: Global,
    bytes: &[u8],
    numbers: &[Option<u32>],
) -> Result<Vec<RelaList>, ElfError>
    requires sections { HasSections bytes.now }
    requires numbers { numbers.now ≡ symbol_numbers bytes.now }
    ensures finds { Finds result (relocations_faults bytes.now) }
    ensures lists { IfOk result (λ lists. AreRelocations bytes.now (count_of bytes.now) lists.items) }
{
    let mut lists = no_relocations(alloc, bytes)?;
    let mut total = 0;
    for i in 0..section_count(bytes) {
        total = read_section(bytes, numbers, i, total, &mut lists)?;
    }
    Ok(lists)
}
