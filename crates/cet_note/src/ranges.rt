//! The types of properties whose data is a word of 32 bits.

ghost use Rattle.std.specs.Prelude.{◌≡◌};
ghost use Rattle.cet_note.specs.Note as note;

/// Whether properties of this type merge by AND: 0xc0000002 to 0xc0007fff (System V x86-64 psABI, "Program Property").
pub fn is_and(kind: u32) -> bool
    ensures { result ≡ note.is_and kind }
{
    (0xc000_0002..=0xc000_7fff).contains(&kind)
}

/// Whether properties of this type merge by OR: 0xc0008000 to 0xc000ffff.
pub fn is_or(kind: u32) -> bool
    ensures { result ≡ note.is_or kind }
{
    (0xc000_8000..=0xc000_ffff).contains(&kind)
}

/// Whether properties of this type merge by OR where every note has them: 0xc0010000 to 0xc0017fff.
pub fn is_or_and(kind: u32) -> bool
    ensures { result ≡ note.is_or_and kind }
{
    (0xc001_0000..=0xc001_7fff).contains(&kind)
}

/// Whether the type lies in one of these three ranges, so that its data is a word of 32 bits.
pub fn is_word_type(kind: u32) -> bool
    ensures { result ≡ note.is_word_type kind }
{
    is_and(kind) || is_or(kind) || is_or_and(kind)
}
