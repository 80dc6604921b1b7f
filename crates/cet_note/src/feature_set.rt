//! Sets of CET features.

ghost use Rattle.std.specs.Prelude.{⊤, [], ◌∷◌, codes};

use bitflags::{Flag, Flags, bitflag_items};

/// A set of CET features: indirect branch tracking (IBT) and shadow stacks (SHSTK), the bits 1 and 2 of
/// GNU_PROPERTY_X86_FEATURE_1_AND.
#[derive(Clone, Copy, PartialEq, Eq, Debug)]
pub struct Features(u32);

bitflag_items! {
    impl Features: u32 {
        const IBT = 1;
        const SHSTK = 2;
    }
}

impl Flags for Features {
    type Bits = u32;

    ghost exact = { ⊤ };

    ghost table = { (codes "IBT", 1) ∷ (codes "SHSTK", 2) ∷ [] };

    ghost set_of = { λ features. features.0 };

    fn flags<'a>() -> &'a [Flag<Features>] {
        Features::FLAGS
    }

    fn bits(&self) -> u32 {
        self.0
    }

    fn from_bits_retain(bits: u32) -> Features {
        Features(bits)
    }
}
