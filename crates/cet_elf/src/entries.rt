//! The entries of the tables of an ELF file, field by field.

ghost use Rattle.std.specs.Prelude.{◌≡◌, ◌+◌, ◌≤◌, length};
ghost use Rattle.cet_elf.specs.Entries.{rela_entry as rela_entry_at, symbol_entry as symbol_entry_at};
ghost use Rattle.cet_elf.specs.Sections.{section_header as header_at};

use crate::fields::{byte, half, word, xword};

/// A section header (gABI, "Sections", Elf64_Shdr), without sh_addr and sh_entsize.
#[derive(Clone, Copy, Debug, PartialEq, Eq)]
pub struct SectionHeader {
    /// The place of the name in the names of sections, in bytes.
    pub name: u32,
    /// sh_type.
    pub kind: u32,
    pub flags: u64,
    /// The place of the section's bytes in the file.
    pub offset: u64,
    /// In bytes.
    pub size: u64,
    pub link: u32,
    pub info: u32,
    /// sh_addralign.
    pub align: u64,
}

/// An entry of a symbol table (gABI, "Symbol Table", Elf64_Sym), without st_other.
#[derive(Clone, Copy, Debug, PartialEq, Eq)]
pub struct SymbolEntry {
    /// The place of the name in the names of symbols, in bytes.
    pub name: u32,
    /// The binding in the upper four bits, the type in the lower four.
    pub info: u8,
    /// st_shndx.
    pub section: u16,
    pub value: u64,
    /// In bytes.
    pub size: u64,
}

/// A relocation entry (gABI, "Relocation", Elf64_Rela).
#[derive(Clone, Copy, Debug, PartialEq, Eq)]
pub struct RelaEntry {
    /// The first byte of the field, counted in the section.
    pub offset: u64,
    /// ELF64_R_TYPE.
    pub kind: u32,
    /// ELF64_R_SYM.
    pub symbol: u32,
    pub addend: i64,
}

/// The section header at `at`.
#[tactic(auto, unfolding(crate::specs::Sections::section_header))]
pub fn section_header(bytes: &[u8], at: u64) -> SectionHeader
    requires { at + 64 ≤ length bytes.now }
    ensures { result ≡ header_at bytes.now at }
{
    SectionHeader {
        name: word(bytes, at),
        kind: word(bytes, at + 4),
        flags: xword(bytes, at + 8),
        offset: xword(bytes, at + 24),
        size: xword(bytes, at + 32),
        link: word(bytes, at + 40),
        info: word(bytes, at + 44),
        align: xword(bytes, at + 48),
    }
}

/// The entry of a symbol table at `at`.
#[tactic(auto, unfolding(crate::specs::Entries::symbol_entry))]
pub fn symbol_entry(bytes: &[u8], at: u64) -> SymbolEntry
    requires { at + 24 ≤ length bytes.now }
    ensures { result ≡ symbol_entry_at bytes.now at }
{
    SymbolEntry {
        name: word(bytes, at),
        info: byte(bytes, at + 4),
        section: half(bytes, at + 6),
        value: xword(bytes, at + 8),
        size: xword(bytes, at + 16),
    }
}

/// The relocation entry at `at`.
#[tactic(auto, unfolding(crate::specs::Entries::rela_entry))]
pub fn rela_entry(bytes: &[u8], at: u64) -> RelaEntry
    requires { at + 24 ≤ length bytes.now }
    ensures { result ≡ rela_entry_at bytes.now at }
{
    RelaEntry {
        offset: xword(bytes, at),
        kind: word(bytes, at + 8),
        symbol: word(bytes, at + 12),
        addend: xword(bytes, at + 16).cast_signed(),
    }
}
