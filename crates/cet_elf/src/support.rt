//! Which sections of an object are loaded, kept and supported.

ghost use Rattle.std.specs.Prelude.{◌≡◌, ◌+◌, ◌<◌, IfOk};
ghost use Rattle.cet_elf.specs.Below.{each_below};
ghost use Rattle.cet_elf.specs.Faults.{Finds};
ghost use Rattle.cet_elf.specs.Header.{section_count as count_of, HasSectionTable};
ghost use Rattle.cet_elf.specs.Sections.{HasSections};
ghost use Rattle.cet_elf.specs.ObjectSections.{is_loaded as is_loaded_in, is_group as is_group_in, is_loaded_type as is_type, are_loaded_flags as are_flags, is_alignment as is_power, is_loaded_at as is_load_at, is_note as is_note_at, is_only_one as is_one, is_supported_load as loads, is_supported_alignment as aligns, is_supported_rel as has_no_rel, is_supported as supports, is_kept as keeps, support_faults};
ghost use Rattle.cet_elf.specs.Special.{IsSpecial};
ghost use Rattle.cet_elf.specs.Numbers.{section_numbers as numbers_of};

use crate::entries::SectionHeader;
use crate::error::ElfError;
use crate::header::demand;
use crate::sections::{section, section_count, section_names, section_place};
use cet_base::NoMemory;
use std::alloc::Global;

const NOTE_NAME: &[u8; 19] = b".note.gnu.property\0";

// The first section of each kind of which there is at most one.
#[derive(Clone, Copy)]
pub struct Special {
    // SHT_SYMTAB.
    pub symbols: Option<u32>,
    // The property note.
    pub note: Option<u32>,
}

// SHF_ALLOC.
pub fn is_loaded(s: SectionHeader) -> bool
    ensures { result ≡ is_loaded_in s }
{
    s.flags & 0x2 != 0
}

// SHT_GROUP.
pub fn is_group(s: SectionHeader) -> bool
    ensures { result ≡ is_group_in s }
{
    s.kind == 17
}

// The types that a loaded section may have.
fn is_loaded_type(kind: u32) -> bool
    ensures { result ≡ is_type kind }
{
    matches!(kind, 1 | 7 | 8 | 0x7000_0001 | 17)
}

// The flags that a loaded section may have.
fn are_loaded_flags(flags: u64) -> bool
    ensures { result ≡ are_flags flags }
{
    flags & 0xc00 == 0 && (flags & 0x1 == 0 || flags & 0x4 == 0)
}

// A power of two up to 4,096, or 0.
fn is_alignment(align: u64) -> bool
    ensures { result ≡ is_power align }
{
    matches!(
        align,
        0 | 1 | 2 | 4 | 8 | 16 | 32 | 64 | 128 | 256 | 512 | 1024 | 2048 | 4096
    )
}

// The section is there and is loaded.
pub fn is_loaded_at(bytes: &[u8], index: u32) -> bool
    requires { HasSectionTable bytes.now }
    ensures { result ≡ is_load_at bytes.now index }
{
    index < section_count(bytes) && is_loaded(section(bytes, index))
}

// The section is the property note. Only so many bytes as the name has are looked at.
#[tactic(auto, unfolding(crate::specs::ObjectSections::is_note))]
pub fn is_note(bytes: &[u8], index: u32) -> bool
    requires sections { HasSections bytes.now }
    requires there { index < count_of bytes.now }
    ensures { result ≡ is_note_at bytes.now index }
{
    let s = section(bytes, index);
    if s.kind != 7 {
        return false;
    }
    let names = section_names(bytes);
    let start = names.len().min(s.name as usize);
    names[start..].starts_with(NOTE_NAME)
}

// The section is kept: it is loaded and not the note, or it is a group.
pub fn is_kept(bytes: &[u8], index: u32) -> bool
    requires sections { HasSections bytes.now }
    requires there { index < count_of bytes.now }
    ensures { result ≡ keeps bytes.now index }
{
    let s = section(bytes, index);
    (is_loaded(s) && !is_note(bytes, index)) || is_group(s)
}

// The section is no second one of its kind.
fn is_only_one(bytes: &[u8], index: u32, found: Special) -> bool
    requires sections { HasSections bytes.now }
    requires there { index < count_of bytes.now }
    requires found { IsSpecial bytes.now index found }
    ensures { result ≡ is_one bytes.now index }
{
    !(section(bytes, index).kind == 2 && found.symbols.is_some())
        && !(is_note(bytes, index) && found.note.is_some())
}

// The type and flags of a section that is loaded.
fn is_supported_load(s: SectionHeader) -> bool
    ensures { result ≡ loads s }
{
    !is_loaded(s) || (is_loaded_type(s.kind) && are_loaded_flags(s.flags))
}

fn is_supported_alignment(s: SectionHeader) -> bool
    ensures { result ≡ aligns s }
{
    !(is_loaded(s) || is_group(s)) || is_alignment(s.align)
}

fn is_supported_rel(bytes: &[u8], s: SectionHeader) -> bool
    requires { HasSectionTable bytes.now }
    ensures { result ≡ has_no_rel bytes.now s }
{
    !(s.kind == 9 && is_loaded_at(bytes, s.info)) && s.kind != 18
}

// The section is supported, where `found` tells of those before it.
#[tactic(auto, unfolding(crate::specs::ObjectSections::is_supported))]
fn is_supported(bytes: &[u8], index: u32, found: Special) -> bool
    requires sections { HasSections bytes.now }
    requires there { index < count_of bytes.now }
    requires found { IsSpecial bytes.now index found }
    ensures { result ≡ supports bytes.now index }
{
    let s = section(bytes, index);
    is_supported_load(s)
        && is_supported_alignment(s)
        && is_supported_rel(bytes, s)
        && is_only_one(bytes, index, found)
}

// What is found with this section too.
fn with_section(bytes: &[u8], index: u32, found: Special) -> Special
    requires sections { HasSections bytes.now }
    requires there { index < count_of bytes.now }
    requires found { IsSpecial bytes.now index found }
    ensures { IsSpecial bytes.now (index + 1) result }
{
    let symbols = if section(bytes, index).kind == 2 {
        found.symbols.or(Some(index))
    } else {
        found.symbols
    };
    let note = if is_note(bytes, index) {
        found.note.or(Some(index))
    } else {
        found.note
    };
    Special { symbols, note }
}

// Each section is supported. The answer has the symbol table and the note.
#[tactic(auto, using(crate::proofs::FaultLemmas::checks, crate::proofs::BelowLemmas::loops))]
pub fn check_support(bytes: &[u8]) -> Result<Special, ElfError>
    requires { HasSections bytes.now }
    ensures finds { Finds result (each_below (count_of bytes.now) (support_faults bytes.now)) }
    ensures special { IfOk result (λ found. IsSpecial bytes.now (count_of bytes.now) found) }
{
    let mut found = Special {
        symbols: None,
        note: None,
    };
    for i in 0..section_count(bytes) {
        let at = section_place(bytes, i);
        demand(is_supported(bytes, i, found), ElfError::Unsupported { at })?;
        found = with_section(bytes, i, found);
    }
    Ok(found)
}

// For each section how many kept ones stand before it: a table, so that no symbol has to count.
#[tactic(auto, using(crate::proofs::NumberLemmas::counts))]
pub fn section_numbers(alloc: Global, bytes: &[u8]) -> Result<Vec<u32>, NoMemory>
    requires { HasSections bytes.now }
    ensures { IfOk result (λ numbers. numbers.items ≡ numbers_of bytes.now) }
{
    let mut numbers = Vec::new(alloc);
    let mut next = 0;
    for i in 0..section_count(bytes) {
        numbers.push(next)?;
        if is_kept(bytes, i) {
            next += 1;
        }
    }
    Ok(numbers)
}
