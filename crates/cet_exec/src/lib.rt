//! Static ELF64 executables of x86-64 (System V gABI and psABI): the reading and the writing of them.
//! It meets the definitions of `specs/ExecFile`: which bytes are which executable, by field offsets, and the faults in order; and of
//! `specs/Written`: the file of an executable. Headers, sections and entries are read and put as `cet_elf` reads and puts them.
#![tactic(auto)]

pub mod law;
mod layout;
mod programs;
mod reading;
mod segments;
mod symbols;
mod tables;
#[cfg(test)]
mod tests;
mod writing;

pub use programs::ProgramHeader;
pub use reading::read_exec;
pub use writing::write_exec;
