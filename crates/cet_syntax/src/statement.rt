//! Statements as values.

use crate::name::Name;
use crate::template::{Code, Reference};

/// A section that statements stand in.
#[derive(Clone, Copy, Debug, PartialEq, Eq)]
pub enum SectionName {
    Text,
    Rodata,
    Data,
    Bss,
}

/// What a word of 8 bytes holds.
#[derive(Drop)]
pub enum Quad<'a> {
    Number(u64),
    Symbol(Name<'a>),
}

/// The words of `.note`.
#[derive(Clone, Copy, Debug, PartialEq, Eq)]
pub struct NoteWords {
    pub ibt: bool,
    pub shstk: bool,
}

/// A directive.
#[derive(Drop)]
pub enum Directive<'a> {
    Section(SectionName),
    Func(Name<'a>),
    End,
    /// An object of this many zero bytes.
    Object(Name<'a>, u64),
    Global(Name<'a>),
    Word(Quad<'a>),
    Byte(u8),
    Zero(u64),
    /// Up to a multiple of 1, 2, 4, 8 or 16.
    Align(u64),
    /// The distance of a symbol from a label.
    Off { name: Name<'a>, table: Name<'a> },
    Note(NoteWords),
}

/// A site: a sequence of instructions that the certifier knows.
#[derive(Drop)]
pub enum Site<'a> {
    Land {
        record: i32,
        landing: Reference<'a>,
    },
    Release {
        record: i32,
    },
    Throw,
    Switch {
        taken: Reference<'a>,
        published: Reference<'a>,
    },
    FiberMake {
        published: Reference<'a>,
        function: Reference<'a>,
    },
    Spawn {
        function: Name<'a>,
    },
    Action {
        signal: u32,
        action: Reference<'a>,
    },
    Read {
        buffer: Reference<'a>,
        size: u32,
    },
}

/// A statement.
#[derive(Drop)]
pub enum Statement<'a> {
    Code(Code<'a>),
    Directive(Directive<'a>),
    Site(Site<'a>),
}
