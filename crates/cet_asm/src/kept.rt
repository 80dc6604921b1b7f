//! The sections that an object has.
ghost use Rattle.std.specs.Prelude.{◌≡◌};
ghost use Rattle.cet_asm.specs.Whole.{kept_number, is_kept_in};

use cet_syntax::SectionName;

/// Which of the sections `.rodata`, `.data` and `.bss` an object has; `.text` it has always.
#[derive(Clone, Copy, Debug, PartialEq, Eq)]
pub(crate) struct Kept {
    pub(crate) rodata: bool,
    pub(crate) data: bool,
    pub(crate) bss: bool,
}

impl Kept {
    /// Whether the object has the section.
    pub(crate) fn has(self, section: SectionName) -> bool
        ensures { result ≡ is_kept_in self section }
    {
        match section {
            SectionName::Text => true,
            SectionName::Rodata => self.rodata,
            SectionName::Data => self.data,
            SectionName::Bss => self.bss,
        }
    }

    /// The number of a section that the object has.
    pub(crate) fn number(self, section: SectionName) -> u32
        ensures { result ≡ kept_number self section }
    {
        let rodata = u32::from(self.rodata);
        let data = u32::from(self.data);
        match section {
            SectionName::Rodata if self.rodata => 1,
            SectionName::Data if self.data => 1 + rodata,
            SectionName::Bss if self.bss => 1 + rodata + data,
            _ => 0,
        }
    }
}
