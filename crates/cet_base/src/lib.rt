//! What every other crate stands on: spans of addresses, little-endian fields, lists, short lines of text, want of
//! memory, files and outputs.
//! It meets the definitions of `specs/`: `Span`, `Field`, `Faults`, `Files` and `Sink`.
//! Lists are seen as lists, lines as their bytes, files as their contents by name, outputs as the bytes that were taken.
#![tactic(auto)]

mod fields;
mod line;
mod lists;
mod mem_files;
mod mem_sink;
mod outcomes;
mod reading;
mod spans;
#[cfg(test)]
mod tests;
mod writing;

pub use fields::{field_u16, field_u32, field_u64};
pub use line::{LINE_CAPACITY, Line};
pub use lists::{Bytes, Items, Text};
pub use mem_files::MemFiles;
pub use mem_sink::MemSink;
pub use outcomes::{Failed, NoMemory};
pub use reading::{FILE_LIMIT, Files, ReadError, read_all};
pub use spans::{Addr, Span};
pub use writing::{Sink, write_all};
