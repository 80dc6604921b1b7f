//! The section header table, and the bytes and names of sections.

ghost use Rattle.std.specs.Prelude.{◌≡◌, ◌+◌, ◌≤◌, ◌<◌, length, OnOk};
ghost use Rattle.cet_elf.specs.Below.{each_below};
ghost use Rattle.cet_elf.specs.Faults.{Finds};
ghost use Rattle.cet_elf.specs.Header.{section_count as count_of, HasSectionTable};
ghost use Rattle.cet_elf.specs.Sections.{section as section_of, section_place as place_of, stored as stored_of, stored_size as stored_size_of, string_table as string_table_of, section_names as section_names_of, place_faults, name_faults, sections_faults, HasSections};

use crate::entries::{SectionHeader, section_header};
use crate::error::ElfError;
use crate::fields::{half, is_part, part, xword};
use crate::header::demand;
use crate::names::Names;

/// The number of sections.
pub fn section_count(bytes: &[u8]) -> u32
    requires { 64 ≤ length bytes.now }
    ensures { result ≡ count_of bytes.now }
{
    u32::from(half(bytes, 60))
}

/// Where the header of a section stands.
pub fn section_place(bytes: &[u8], index: u32) -> u64
    requires table { HasSectionTable bytes.now }
    requires there { index < count_of bytes.now }
    ensures place { result ≡ place_of bytes.now index }
    ensures inside { result + 64 ≤ length bytes.now }
{
    xword(bytes, 40) + 64 * u64::from(index)
}

/// The header of a section.
pub fn section(bytes: &[u8], index: u32) -> SectionHeader
    requires table { HasSectionTable bytes.now }
    requires there { index < count_of bytes.now }
    ensures { result ≡ section_of bytes.now index }
{
    section_header(bytes, section_place(bytes, index))
}

/// How many bytes of the file a section has.
pub fn stored_size(s: SectionHeader) -> u64
    ensures { result ≡ stored_size_of s }
{
    if s.kind == 8 { 0 } else { s.size }
}

/// The bytes of a section.
pub fn stored(bytes: &[u8], index: u32) -> &[u8]
    requires sections { HasSections bytes.now }
    requires there { index < count_of bytes.now }
    ensures { result.now ≡ stored_of bytes.now (section_of bytes.now index) }
{
    let s = section(bytes, index);
    part(bytes, s.offset, stored_size(s))
}

/// The string table that is section `index`. What is none is empty, and so has no name in it.
#[tactic(auto, unfolding(crate::specs::Sections::string_table))]
pub fn string_table(bytes: &[u8], index: u32) -> &[u8]
    requires { HasSections bytes.now }
    ensures { result.now ≡ string_table_of bytes.now index }
{
    if index == 0 || index >= section_count(bytes) {
        return &bytes[..0];
    }
    stored(bytes, index)
}

/// The names of sections.
pub fn section_names(bytes: &[u8]) -> &[u8]
    requires { HasSections bytes.now }
    ensures { result.now ≡ section_names_of bytes.now }
{
    string_table(bytes, u32::from(half(bytes, 62)))
}

// The bytes of each section are in the file.
#[tactic(auto, using(crate::proofs::FaultLemmas::checks, crate::proofs::BelowLemmas::loops))]
fn check_places(bytes: &[u8]) -> Result<(), ElfError>
    requires { HasSectionTable bytes.now }
    ensures { Finds result (each_below (count_of bytes.now) (place_faults bytes.now)) }
{
    for i in 0..section_count(bytes) {
        let s = section(bytes, i);
        let at = section_place(bytes, i) + 24;
        demand(
            is_part(bytes, s.offset, stored_size(s)),
            ElfError::Bounds { at },
        )?;
    }
    Ok(())
}

// Each section has a name.
#[tactic(auto, using(crate::proofs::FaultLemmas::checks, crate::proofs::BelowLemmas::loops))]
fn check_names(bytes: &[u8]) -> Result<(), ElfError>
    requires { HasSections bytes.now }
    ensures { Finds result (each_below (count_of bytes.now) (name_faults bytes.now)) }
{
    let names = Names::new(section_names(bytes));
    for i in 0..section_count(bytes) {
        let s = section(bytes, i);
        let at = section_place(bytes, i);
        demand(names.has(s.name), ElfError::Name { at })?;
    }
    Ok(())
}

/// The places, then the names of all sections.
#[tactic(auto, using(crate::proofs::FaultLemmas::checks, crate::proofs::SectionLemmas::sections_known), unfolding(crate::specs::Sections::sections_faults))]
pub fn check_sections(bytes: &[u8]) -> Result<(), ElfError>
    requires { HasSectionTable bytes.now }
    ensures finds { Finds result (sections_faults bytes.now) }
    ensures sections { OnOk result (HasSections bytes.now) }
{
    check_places(bytes)?;
    check_names(bytes)
}
