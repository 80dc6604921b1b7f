//! Why bytes are no property note.

ghost use Rattle.std.specs.Prelude.{◌≡◌};
ghost use Rattle.cet_note.specs.declared.fault.NoteError.TheVariants as errors;

use cet_base::NoMemory;
use thiserror::Error;

/// The first fault of a property note from left to right, with the offset in bytes of the field that has it, or want
/// of memory. The fields are those of the ELF gABI, "Note Section", and of the System V x86-64 psABI, "Program Property".
#[derive(Clone, Copy, Debug, PartialEq, Eq, Error)]
pub enum NoteError {
    /// The field passes the end of the input.
    #[error("the field at {at} passes the end of the note")]
    Cut { at: u64 },
    /// The size of the name is not 4, or the name is not `GNU` and a zero byte.
    #[error("the field at {at} is not that of the name `GNU`")]
    Name { at: u64 },
    /// The type of the note is not 5, NT_GNU_PROPERTY_TYPE_0.
    #[error("the type at {at} is not that of a property note")]
    Kind { at: u64 },
    /// The size of the descriptor is no multiple of 8; a property passes the end of the descriptor; the data of a type
    /// of the three ranges is no word of 4 bytes; or the input goes on after the descriptor.
    #[error("the size at {at} does not fit the note")]
    Size { at: u64 },
    /// The type of a property is below the one before it.
    #[error("the property type at {at} is out of order")]
    Order { at: u64 },
    /// The type of a property is equal to the one before it.
    #[error("the property type at {at} comes twice")]
    Twice { at: u64 },
    /// There was no memory for the note.
    #[error("out of memory")]
    NoMemory,
}

impl From<NoMemory> for NoteError {
    ghost from_gives = { λ _ e. e ≡ errors.NoMemory };

    fn from(_refused: NoMemory) -> NoteError {
        NoteError::NoMemory
    }
}
