//! The fields of an instruction that wait for the value of a symbol.
ghost use Rattle.std.specs.Prelude.{◌≡◌, ◌+◌, ◌<◌, ◌^◌, length, IsTrue, SomeIff};
ghost use Rattle.std.specs.Int.{w64};
ghost use Rattle.cet_isa.specs.Canonical.{fits};
ghost use Rattle.cet_asm.specs.Emitted.{code_of, displacement_use as displacement_use_of, constant_use as constant_use_of, moved as moved_use};

use crate::sizes::{
    R_X86_64_32S, R_X86_64_PC32, constant_bias, constant_kind, constant_size, is_rip_relative,
};
use cet_isa::Insn;
use cet_syntax::{Name, Reference};

/// A field that waits for the value of a symbol: where it stands among the bytes, how many bytes it has, and what is to be put there
/// (gABI, "Relocation").
#[derive(Drop)]
pub struct Use<'a> {
    pub offset: u64,
    pub size: u8,
    /// ELF64_R_TYPE.
    pub kind: u32,
    pub name: Name<'a>,
    pub addend: i64,
}

impl<'a> Use<'a> {
    /// The same behind this many bytes.
    pub(crate) fn moved(self, by: u64) -> Use<'a>
        requires { by + self.offset < 2 ^ 64 }
        ensures { result ≡ moved_use by self.entry }
    {
        Use {
            offset: by + self.offset,
            ..self
        }
    }
}

/// The displacement of a memory operand, in a form of `len` bytes. None where the addend does not have 64 bits.
pub(crate) fn displacement_use<'a>(
    insn: Insn,
    len: u64,
    reference: Reference<'a>,
) -> Option<Use<'a>>
    requires { len ≡ length (code_of insn) }
    ensures { SomeIff result (IsTrue (fits w64 (displacement_use_of insn reference.entry).addend)) (displacement_use_of insn reference.entry) }
{
    let Reference { name, addend } = reference;
    let behind = constant_size(insn);
    let offset = len.saturating_sub(u64::from(behind)).saturating_sub(4);
    let (kind, bias) = if is_rip_relative(insn) {
        (R_X86_64_PC32, i64::from(behind) + 4)
    } else {
        (R_X86_64_32S, 0)
    };
    let addend = addend.checked_sub(bias)?;
    Some(Use {
        offset,
        size: 4,
        kind,
        name,
        addend,
    })
}

/// The constant or the branch displacement that ends a form of `len` bytes. None where the addend does not have 64 bits.
pub(crate) fn constant_use<'a>(insn: Insn, len: u64, reference: Reference<'a>) -> Option<Use<'a>>
    requires { len ≡ length (code_of insn) }
    ensures { SomeIff result (IsTrue (fits w64 (constant_use_of insn reference.entry).addend)) (constant_use_of insn reference.entry) }
{
    let Reference { name, addend } = reference;
    let size = constant_size(insn);
    let addend = addend.checked_sub(i64::from(constant_bias(insn)))?;
    Some(Use {
        offset: len.saturating_sub(u64::from(size)),
        size,
        kind: constant_kind(insn),
        name,
        addend,
    })
}
