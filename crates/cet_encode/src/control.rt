//! The stack, branches and conditions.
ghost use Rattle.std.specs.Prelude.{◌≡◌, ◌<◌, Some};
ghost use Rattle.cet_isa.specs.declared.instruction.Insn.{Insn};
ghost use Rattle.cet_isa.specs.Canonical.{canonical, condition_number as condition_number_of};
ghost use Rattle.cet_isa.specs.Canonical.{jump as jump_of, conditional_jump as conditional_jump_of, indirect as indirect_of};

use crate::code::Code;
use crate::number::{short_signed, signed8, signed32};
use crate::operand::{digit, memory, register_or_memory};
use crate::shape::{Opcode, Prefix, plain, with_modrm};
use cet_isa::{Cond, Mem, Rel, Rm};

/// The number of a condition in the opcode (SDM volume 2, B.1.4.7).
pub(crate) fn condition_number(cond: Cond) -> u8
    ensures number { result ≡ condition_number_of cond }
    ensures bound { result < 16 }
{
    match cond {
        Cond::O => 0,
        Cond::No => 1,
        Cond::B => 2,
        Cond::Ae => 3,
        Cond::E => 4,
        Cond::Ne => 5,
        Cond::Be => 6,
        Cond::A => 7,
        Cond::S => 8,
        Cond::Ns => 9,
        Cond::L => 12,
        Cond::Ge => 13,
        Cond::Le => 14,
        Cond::G => 15,
    }
}

/// PUSH of a constant: ib where it fits, else id.
#[tactic(auto, unfolding(cet_isa::specs::Canonical::canonical))]
pub(crate) fn push_imm(imm: i32) -> Code
    ensures { Some result ≡ canonical (Insn.PushImm imm) }
{
    match short_signed(imm) {
        Some(bytes) => plain(Opcode::OneByte(0x6A), &bytes),
        None => plain(Opcode::OneByte(0x68), &signed32(imm)),
    }
}

/// PUSH of memory.
#[tactic(auto, unfolding(cet_isa::specs::Canonical::canonical))]
pub(crate) fn push_mem(mem: Mem) -> Option<Code>
    ensures { result ≡ canonical (Insn.PushMem mem) }
{
    with_modrm(
        Prefix::Absent,
        false,
        Opcode::OneByte(0xFF),
        digit(6),
        memory(mem),
        &[],
    )
}

pub(crate) fn jump(rel: Rel) -> Code
    ensures { Some result ≡ jump_of rel }
{
    match rel {
        Rel::S(rel) => plain(Opcode::OneByte(0xEB), &signed8(rel)),
        Rel::L(rel) => plain(Opcode::OneByte(0xE9), &signed32(rel)),
    }
}

pub(crate) fn conditional_jump(cond: Cond, rel: Rel) -> Code
    ensures { Some result ≡ conditional_jump_of cond rel }
{
    let number = condition_number(cond);
    match rel {
        Rel::S(rel) => plain(Opcode::OneByte(0x70 + number), &signed8(rel)),
        Rel::L(rel) => plain(Opcode::TwoByte(0x80 + number), &signed32(rel)),
    }
}

/// CALL, /2, or JMP, /4, through a register or memory.
pub(crate) fn indirect(notrack: bool, n: u8, target: Rm) -> Option<Code>
    requires { n < 8 }
    ensures { result ≡ indirect_of notrack n target }
{
    let rm = register_or_memory(false, target);
    let prefix = if notrack {
        Prefix::Notrack
    } else {
        Prefix::Absent
    };
    with_modrm(prefix, false, Opcode::OneByte(0xFF), digit(n), rm, &[])
}

/// SETcc.
#[tactic(auto, unfolding(cet_isa::specs::Canonical::canonical))]
pub(crate) fn set(cond: Cond, dst: Rm) -> Option<Code>
    ensures { result ≡ canonical (Insn.SetCc cond dst) }
{
    let rm = register_or_memory(true, dst);
    with_modrm(
        Prefix::Absent,
        false,
        Opcode::TwoByte(0x90 + condition_number(cond)),
        digit(0),
        rm,
        &[],
    )
}
