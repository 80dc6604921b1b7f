//! Why bytes are no ELF file that is read.

ghost use Rattle.cet_elf.specs.declared.error.ElfError.TheVariants as errors;
ghost use Rattle.std.specs.Prelude.{◌≡◌};

use cet_base::NoMemory;
use thiserror::Error;

/// The first fault of a file, with the offset in the file of the field that has it, or want of memory.
#[derive(Clone, Copy, Debug, PartialEq, Eq, Error)]
pub enum ElfError {
    /// The file does not begin with 7f 45 4c 46.
    #[error("the magic at {at} is not that of an ELF file")]
    Magic { at: u64 },
    /// The file is not of 64 bits, not little-endian, or not of version 1.
    #[error("the byte at {at} is not that of a little-endian 64-bit ELF file")]
    Class { at: u64 },
    /// The machine is not x86-64.
    #[error("the machine at {at} is not x86-64")]
    Machine { at: u64 },
    /// The type of the file or the size of a table's entries is another.
    #[error("the type or entry size at {at} is not the one expected")]
    Kind { at: u64 },
    /// A part that the field names does not lie in the file.
    #[error("the part that the field at {at} names passes the end of the file")]
    Bounds { at: u64 },
    /// The field leads to no name that ends in a zero byte inside its string table.
    #[error("the field at {at} leads to no name")]
    Name { at: u64 },
    /// The field names no section or symbol.
    #[error("the index at {at} names no section or symbol")]
    SymbolIndex { at: u64 },
    /// The relocation has a type that is not one of those that are read.
    #[error("the relocation type {value} at {at} is not known")]
    RelaType { at: u64, value: u32 },
    /// A limit on the number of sections, symbols or relocations is passed.
    #[error("the table at {at} has too many entries")]
    TooMany { at: u64 },
    /// The file has a part that is not read.
    #[error("the part at {at} is of an unsupported kind")]
    Unsupported { at: u64 },
    /// There was no memory for the value.
    #[error("out of memory")]
    NoMemory,
}

impl From<NoMemory> for ElfError {
    ghost from_gives = { λ _ e. e ≡ errors.NoMemory };

    fn from(_refused: NoMemory) -> ElfError {
        ElfError::NoMemory
    }
}
