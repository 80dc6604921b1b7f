//! Moves and exchanges.
ghost use Rattle.std.specs.Prelude.{◌≡◌, ◌<◌, ◌∷◌, [], false, true};
ghost use Rattle.cet_isa.specs.declared.instruction.Insn.{Insn};
ghost use Rattle.cet_isa.specs.Canonical.{canonical, no_bytes, no_immediate, is_wide as is_wide_width, reg_field as reg_field_of, register_or_memory as register_or_memory_of, with_modrm as with_modrm_of, exchange as exchange_of};
ghost use Rattle.cet_isa.specs.PrefixedMap.{none};

use crate::code::Code;
use crate::number::{unsigned8, unsigned32, unsigned64};
use crate::operand::{memory, reg_field, register_or_memory};
use crate::shape::{Opcode, Prefix, in_opcode, with_modrm};
use crate::sized::{is_byte, is_wide, sized};
use cet_isa::{Mem, Reg, Rm, Width};

/// MOV of a constant of the whole width.
#[tactic(auto, unfolding(cet_isa::specs::Canonical::canonical))]
pub(crate) fn constant(width: Width, dst: Reg, imm: u64) -> Option<Code>
    ensures { result ≡ canonical (Insn.MovAbs width dst imm) }
{
    match width {
        Width::B1 => Some(in_opcode(false, 0xB0, true, dst, &unsigned8(imm)?)),
        Width::B4 => Some(in_opcode(false, 0xB8, false, dst, &unsigned32(imm)?)),
        Width::B8 => Some(in_opcode(true, 0xB8, false, dst, &unsigned64(imm))),
    }
}

/// MOVZX and MOVSX from a byte.
pub(crate) fn byte_source(width: Width, opcode: u8, dst: Reg, src: Rm) -> Option<Code>
    ensures { result ≡ no_bytes width (with_modrm_of none (is_wide_width width) (0x0F ∷ opcode ∷ []) (reg_field_of false dst) (register_or_memory_of true src) no_immediate) }
{
    if is_byte(width) {
        return None;
    }
    let rm = register_or_memory(true, src);
    with_modrm(
        Prefix::Absent,
        is_wide(width),
        Opcode::TwoByte(opcode),
        reg_field(false, dst),
        rm,
        &[],
    )
}

/// CMPXCHG and XADD of memory.
pub(crate) fn exchange(lock: bool, width: Width, opcode: u8, dst: Mem, src: Reg) -> Option<Code>
    requires { opcode < 255 }
    ensures { result ≡ exchange_of lock width opcode dst src }
{
    let prefix = if lock { Prefix::Lock } else { Prefix::Absent };
    let opcode = Opcode::TwoByte(sized(opcode, width));
    let reg = reg_field(is_byte(width), src);
    with_modrm(prefix, is_wide(width), opcode, reg, memory(dst), &[])
}
