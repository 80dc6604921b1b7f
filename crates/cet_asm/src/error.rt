//! Why a text is not assembled.
ghost use Rattle.std.specs.Prelude.{◌≡◌};
ghost use Rattle.cet_asm.specs.Assembled.{kind_of};
ghost use Rattle.cet_asm.specs.declared.error.AsmKind.TheVariants as kinds;

use cet_base::NoMemory;
use cet_syntax::SyntaxError;
use std::alloc::AllocFailed;

/// What is wrong.
#[derive(Clone, Copy, Debug, PartialEq, Eq)]
pub enum AsmKind {
    /// A statement that is unknown or out of place; a `.func` without its `.end`.
    Word,
    /// Operands that the statement does not have.
    Operand,
    /// A number outside its field, an instruction without a form, or a section past 2^64 - 1 bytes.
    Range,
    /// A short branch to a name that is not defined in its section.
    Label,
    /// A name that is defined again, or a second note.
    Twice,
    /// More symbols or relocations than an object may have.
    TooMany,
    /// There was no memory for the object.
    NoMemory,
}

impl From<NoMemory> for AsmKind {
    ghost from_gives = { λ _ kind. kind ≡ kinds.NoMemory };

    fn from(_refused: NoMemory) -> AsmKind {
        AsmKind::NoMemory
    }
}

/// The value that was not stored is dropped.
impl<T: Drop> From<AllocFailed<T>> for AsmKind {
    ghost from_gives = { λ _ kind. kind ≡ kinds.NoMemory };

    fn from(_refused: AllocFailed<T>) -> AsmKind {
        AsmKind::NoMemory
    }
}

impl From<SyntaxError> for AsmKind {
    ghost from_gives = { λ error kind. kind ≡ kind_of error };

    fn from(error: SyntaxError) -> AsmKind {
        match error {
            SyntaxError::Word => AsmKind::Word,
            SyntaxError::Operand => AsmKind::Operand,
            SyntaxError::Range => AsmKind::Range,
        }
    }
}

/// The first fault of a text, with its line from 1, or want of memory, with line 0.
#[derive(Clone, Copy, Debug, PartialEq, Eq)]
pub struct AsmError {
    pub line: u32,
    pub kind: AsmKind,
}
