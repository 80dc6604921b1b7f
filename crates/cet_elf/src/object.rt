//! Relocatable objects (gABI, "Sections", "Symbol Table", "Relocation"; psABI, "Object Files").

use cet_base::{Bytes, Items, Text};

/// What a section is loaded as.
#[derive(Clone, Copy, Debug, PartialEq, Eq)]
pub enum Class {
    /// SHF_EXECINSTR.
    Code,
    /// Neither written nor executed.
    Read,
    /// SHF_WRITE, with stored bytes.
    Write,
    /// SHT_NOBITS: zeros that are not stored.
    Zero,
    /// SHT_GROUP, loaded or not.
    Group,
}

/// What a symbol names (gABI, "Symbol Table", STT_NOTYPE, STT_FUNC, STT_OBJECT, STT_SECTION).
#[derive(Clone, Copy, Debug, PartialEq, Eq)]
pub enum SymbolKind {
    None,
    Func,
    Object,
    Section,
}

/// Where a symbol is seen (gABI, "Symbol Table", STB_LOCAL, STB_GLOBAL, STB_WEAK).
#[derive(Clone, Copy, Debug, PartialEq, Eq)]
pub enum Bind {
    Local,
    Global,
    Weak,
}

/// Where a symbol's value counts from (gABI, "Sections", special section indexes).
#[derive(Clone, Copy, Debug, PartialEq, Eq)]
pub enum SymbolPlace {
    /// SHN_UNDEF.
    Undefined,
    /// SHN_ABS: the value is an address.
    Absolute,
    /// SHN_COMMON.
    Common,
    /// The section of this number, from 0, among the sections of the object.
    In(u32),
}

/// A relocation with an addend (gABI, "Relocation", Elf64_Rela; psABI, "Relocation Types").
#[derive(Clone, Copy, Debug, PartialEq, Eq)]
pub struct Rela {
    /// The first byte of the field, counted in the section.
    pub offset: u64,
    /// ELF64_R_TYPE.
    pub kind: u32,
    /// The symbol's number, from 0, among the symbols of the object.
    pub symbol: u32,
    pub addend: i64,
}

pub type RelaList = Items<Rela>;

/// A section that is loaded, or a group.
#[derive(Debug, PartialEq, Eq, Drop)]
pub struct Section {
    pub name: Text,
    pub class: Class,
    /// A power of two.
    pub align: u64,
    /// In bytes.
    pub size: u64,
    /// The stored bytes: none in a section of class Zero, and as many as its size in every other one, a group too.
    pub bytes: Bytes,
    pub relocations: RelaList,
}

pub type SectionList = Items<Section>;

/// A symbol.
#[derive(Debug, PartialEq, Eq, Drop)]
pub struct Symbol {
    pub name: Text,
    pub kind: SymbolKind,
    pub bind: Bind,
    pub place: SymbolPlace,
    pub value: u64,
    /// In bytes.
    pub size: u64,
}

pub type SymbolList = Items<Symbol>;

/// A relocatable object.
#[derive(Debug, PartialEq, Eq, Drop)]
pub struct Object {
    pub sections: SectionList,
    pub symbols: SymbolList,
    /// The bytes of the section `.note.gnu.property`, where there is one.
    pub notes: Option<Bytes>,
}
