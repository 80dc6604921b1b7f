//! The CET features that a note claims.

ghost use Rattle.std.specs.Prelude.{◌≡◌, bit_and};
ghost use Rattle.cet_note.specs.Note.{bits_of};

use crate::feature_set::Features;
use crate::props::Props;
use bitflags::Flags;

/// The type GNU_PROPERTY_X86_FEATURE_1_AND (System V x86-64 psABI, "Program Property").
pub const FEATURE_1_AND: u32 = 0xc000_0002;

/// The features that a note claims: of its word of type GNU_PROPERTY_X86_FEATURE_1_AND the two bits that have names, and
/// none where it has no such word.
pub fn features(props: &Props) -> Features
    ensures { ⟦<Features as Flags>⟧.set_of result ≡ bit_and (bits_of props.now 0xc0000002) 3 }
{
    Features::from_bits_truncate(props.get(FEATURE_1_AND).unwrap_or(0))
}
