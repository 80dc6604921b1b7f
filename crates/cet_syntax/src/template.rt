//! Instructions with names in the place of numbers.
ghost use Rattle.std.specs.Prelude.{◌≡◌};

use crate::name::Name;
use cet_isa::{Cond, Insn};

/// The value of a symbol with a number added.
#[derive(Drop)]
pub struct Reference<'a> {
    pub name: Name<'a>,
    pub addend: i64,
}

impl<'a> Reference<'a> {
    /// The same once more. It takes no memory.
    pub fn copied(&self) -> Reference<'a>
        ensures { result ≡ self.now }
    {
        Reference {
            name: self.name.copied(),
            addend: self.addend,
        }
    }
}

/// An instruction in which a displacement in memory and a constant may be the value of a symbol. Such a field of the instruction value
/// holds 2^31 - 1.
#[derive(Drop)]
pub struct Template<'a> {
    pub insn: Insn,
    /// What stands in the displacement of the memory operand.
    pub memory: Option<Reference<'a>>,
    /// What stands in the constant, or in the displacement of a branch.
    pub immediate: Option<Reference<'a>>,
}

/// What an instruction statement stands for.
#[derive(Drop)]
pub enum Code<'a> {
    Long(Template<'a>),
    /// A branch of 8 bits to a name: JMP, or a conditional one.
    Short(Option<Cond>, Name<'a>),
}
