//! ELF64 files of x86-64 (System V gABI and psABI): objects as values, the reading and the writing of them.
//! It meets the definitions of `specs/ObjectFile`: which bytes are which object, by field offsets, and the faults in order;
//! and of `specs/Written`: the file of an object. Headers, sections and entries are told for executables too.
#![tactic(auto)]

pub mod entries;
mod error;
mod exec;
pub mod fields;
pub mod header;
pub mod law;
pub mod layout;
pub mod names;
mod object;
mod parts;
pub mod put;
mod reading;
mod relocations;
pub mod room;
pub mod sections;
mod size;
mod support;
pub mod symbols;
pub mod tables;
#[cfg(test)]
mod tests;
mod writing;
#[cfg(test)]
mod writing_tests;

pub use error::ElfError;
pub use exec::{Exec, ExecSegment, ExecSegmentList, ExecSymbol, ExecSymbolList};
pub use object::{
    Bind, Class, Object, Rela, RelaList, Section, SectionList, Symbol, SymbolKind, SymbolList,
    SymbolPlace,
};
pub use reading::read_object;
pub use writing::write_object;
