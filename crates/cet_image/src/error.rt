//! Why something is no image.

ghost use Rattle.std.specs.Prelude.{◌≡◌};
ghost use Rattle.cet_image.specs.declared.error.ImageError.TheVariants as errors;

use cet_base::NoMemory;
use cet_note::NoteError;

/// Why an executable or raw code is no image.
#[derive(Clone, Copy, Debug, PartialEq, Eq)]
pub enum ImageError {
    /// Raw code has no byte.
    Empty,
    /// The property note cannot be read. `error` is its first fault, and never want of memory.
    Note { error: NoteError },
    /// There are more than 16 segments, or more than 65,536 functions.
    TooMany,
    /// The segment that starts at `at` is longer than 16,777,216 bytes, or it or the function that starts there passes 2^47.
    Range { at: u64 },
    /// The segments that start at `a` and at `b` share a byte.
    Overlap { a: u64, b: u64 },
    /// There was no memory for the image.
    NoMemory,
}

impl From<NoMemory> for ImageError {
    ghost from_gives = { λ _ e. e ≡ errors.NoMemory };

    fn from(_refused: NoMemory) -> ImageError {
        ImageError::NoMemory
    }
}
