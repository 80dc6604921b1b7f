//! Executables (gABI, "Program Header", "Symbol Table").

use crate::object::{Bind, SymbolKind};
use cet_base::{Bytes, Items, Text};

/// A part of memory that an executable asks for: a program header of type PT_LOAD with the bytes of its file.
#[derive(Debug, PartialEq, Eq, Drop)]
pub struct ExecSegment {
    /// p_vaddr: the address of the first byte.
    pub start: u64,
    /// p_memsz, in bytes. The bytes after the stored ones are zeros.
    pub size: u64,
    /// p_flags: PF_X is 1, PF_W is 2 and PF_R is 4.
    pub flags: u32,
    /// The stored bytes, of which p_filesz tells the number.
    pub bytes: Bytes,
}

pub type ExecSegmentList = Items<ExecSegment>;

/// A symbol of an executable.
#[derive(Debug, PartialEq, Eq, Drop)]
pub struct ExecSymbol {
    pub name: Text,
    pub kind: SymbolKind,
    pub bind: Bind,
    /// An address, or the value of an absolute symbol.
    pub value: u64,
    /// In bytes.
    pub size: u64,
}

pub type ExecSymbolList = Items<ExecSymbol>;

/// A static executable.
#[derive(Debug, PartialEq, Eq, Drop)]
pub struct Exec {
    /// e_entry: the address of the first instruction.
    pub entry: u64,
    pub segments: ExecSegmentList,
    pub symbols: ExecSymbolList,
    /// The bytes of the section `.note.gnu.property`, where there is one.
    pub notes: Option<Bytes>,
}
