//! Why objects are not linked.

ghost use Rattle.cet_link.specs.declared.error.LinkError.TheVariants as errors;
ghost use Rattle.std.specs.Prelude.{◌≡◌};

use cet_base::{NoMemory, Text};
use cet_note::NoteError;
use std::alloc::AllocError;

/// The first thing wrong with the inputs of a link, or want of memory. Inputs are numbered from 0, and so are the sections of an input.
#[derive(Debug, PartialEq, Eq, Drop)]
pub enum LinkError {
    /// The property note of the input cannot be read. The error is no want of memory.
    Note {
        input: u32,
        error: NoteError,
    },
    /// The input has a section group.
    Group {
        input: u32,
    },
    /// The input has a symbol in SHN_COMMON.
    Common {
        name: Text,
        input: u32,
    },
    /// Both inputs, which may be one, define the name as a global one.
    Duplicate {
        name: Text,
        first: u32,
        second: u32,
    },
    /// The input has a local symbol that is not defined, or a global one whose name no input defines.
    Undefined {
        name: Text,
        input: u32,
    },
    /// The name of the entry is not defined, or names neither a function nor a place without a type.
    NoEntry,
    /// A class of sections passes 16,777,216 bytes, or the names of symbols reach 2^31 bytes together.
    TooLarge,
    /// The value of the relocation at this offset of the section does not fit its field.
    Overflow {
        input: u32,
        section: u32,
        offset: u64,
    },
    /// There was no memory for the executable.
    NoMemory,
}

impl From<NoMemory> for LinkError {
    ghost from_gives = { λ _ e. e ≡ errors.NoMemory };

    fn from(_refused: NoMemory) -> LinkError {
        LinkError::NoMemory
    }
}
