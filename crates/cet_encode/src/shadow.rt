//! Shadow stacks (SDM volume 1, 17.2).
ghost use Rattle.std.specs.Prelude.{◌≡◌, ◌<◌, Some};
ghost use Rattle.cet_isa.specs.declared.instruction.Insn.{Insn};
ghost use Rattle.cet_isa.specs.Canonical.{canonical, shadow_register as shadow_register_of};

use crate::code::Code;
use crate::operand::{digit, memory, reg_field, register_field};
use crate::shape::{Opcode, Prefix, modrm_form, with_modrm};
use cet_isa::{Mem, Reg};

/// RDSSPQ and INCSSPQ.
pub(crate) fn shadow_register(opcode: u8, n: u8, register: Reg) -> Code
    requires { n < 8 }
    ensures { Some result ≡ shadow_register_of opcode n register }
{
    let rm = register_field(false, register);
    modrm_form(
        Prefix::Mandatory,
        true,
        Opcode::TwoByte(opcode),
        digit(n),
        rm,
        &[],
    )
}

/// RSTORSSP.
#[tactic(auto, unfolding(cet_isa::specs::Canonical::canonical))]
pub(crate) fn restore(mem: Mem) -> Option<Code>
    ensures { result ≡ canonical (Insn.RstorSsp mem) }
{
    with_modrm(
        Prefix::Mandatory,
        false,
        Opcode::TwoByte(0x01),
        digit(5),
        memory(mem),
        &[],
    )
}

/// WRSSQ.
#[tactic(auto, unfolding(cet_isa::specs::Canonical::canonical))]
pub(crate) fn write(mem: Mem, src: Reg) -> Option<Code>
    ensures { result ≡ canonical (Insn.WrSs mem src) }
{
    with_modrm(
        Prefix::Absent,
        true,
        Opcode::ThreeByte(0xF6),
        reg_field(false, src),
        memory(mem),
        &[],
    )
}
