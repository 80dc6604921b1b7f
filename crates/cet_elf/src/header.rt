//! The header of an ELF file, and where its two tables stand.

ghost use Rattle.std.specs.Prelude.{◌≡◌, ◌≤◌, length, OnOk};
ghost use Rattle.cet_elf.specs.Faults.{Finds, broken};
ghost use Rattle.cet_elf.specs.Header.{ident_faults, kind_faults, table_faults, header_faults, HasSectionTable};

use crate::error::ElfError;
use crate::fields::{byte, half, is_part, word, xword};

/// The rule holds, or this fault is found.
pub fn demand(rule: bool, fault: ElfError) -> Result<(), ElfError>
    ensures { Finds result (broken rule fault) }
{
    if rule { Ok(()) } else { Err(fault) }
}

// The file is a little-endian 64-bit ELF file (gABI, "ELF Identification").
#[tactic(auto, using(crate::proofs::FaultLemmas::checks), unfolding(crate::specs::Header::ident_faults))]
fn check_ident(bytes: &[u8]) -> Result<(), ElfError>
    ensures long { OnOk result (64 ≤ length bytes.now) }
    ensures finds { Finds result (ident_faults bytes.now) }
{
    if bytes.len() < 64 {
        return Err(ElfError::Bounds { at: 0 });
    }
    demand(word(bytes, 0) == 0x464c_457f, ElfError::Magic { at: 0 })?;
    demand(byte(bytes, 4) == 2, ElfError::Class { at: 4 })?;
    demand(byte(bytes, 5) == 1, ElfError::Class { at: 5 })?;
    demand(byte(bytes, 6) == 1, ElfError::Class { at: 6 })
}

// The type, the machine, and the entry sizes of the tables that have entries.
#[tactic(auto, using(crate::proofs::FaultLemmas::checks), unfolding(crate::specs::Header::kind_faults))]
fn check_kinds(bytes: &[u8], kind: u16) -> Result<(), ElfError>
    requires { 64 ≤ length bytes.now }
    ensures { Finds result (kind_faults kind bytes.now) }
{
    demand(half(bytes, 16) == kind, ElfError::Kind { at: 16 })?;
    demand(half(bytes, 18) == 62, ElfError::Machine { at: 18 })?;
    demand(
        half(bytes, 60) == 0 || half(bytes, 58) == 64,
        ElfError::Kind { at: 58 },
    )?;
    demand(
        half(bytes, 56) == 0 || half(bytes, 54) == 56,
        ElfError::Kind { at: 54 },
    )
}

// The number of sections, and the places of the two tables.
#[tactic(auto, using(crate::proofs::FaultLemmas::checks), unfolding(crate::specs::Header::table_faults))]
fn check_tables(bytes: &[u8]) -> Result<(), ElfError>
    requires { 64 ≤ length bytes.now }
    ensures { Finds result (table_faults bytes.now) }
{
    let sections = half(bytes, 60);
    demand(sections <= 4096, ElfError::TooMany { at: 60 })?;
    demand(
        is_part(bytes, xword(bytes, 40), 64 * u64::from(sections)),
        ElfError::Bounds { at: 40 },
    )?;
    demand(
        is_part(bytes, xword(bytes, 32), 56 * u64::from(half(bytes, 56))),
        ElfError::Bounds { at: 32 },
    )
}

/// The header of a file of this e_type.
#[tactic(auto, using(crate::proofs::FaultLemmas::checks, crate::proofs::TableLemmas::table_known), unfolding(crate::specs::Header::header_faults))]
pub fn check_header(bytes: &[u8], kind: u16) -> Result<(), ElfError>
    ensures finds { Finds result (header_faults kind bytes.now) }
    ensures table { OnOk result (HasSectionTable bytes.now) }
{
    check_ident(bytes)?;
    check_kinds(bytes, kind)?;
    check_tables(bytes)
}
