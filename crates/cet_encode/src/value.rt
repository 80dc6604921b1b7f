//! The canonical form of each instruction value.
ghost use Rattle.std.specs.Prelude.{◌≡◌};
ghost use Rattle.cet_isa.specs.Canonical.{canonical as canonical_of};

use crate::arithmetic::{alu_imm, alu_number, multiply, product, shift, unary};
use crate::code::Code;
use crate::control::{condition_number, conditional_jump, indirect, jump, push_imm, push_mem, set};
use crate::moves::{byte_source, constant, exchange};
use crate::number::signed32;
use crate::shadow::{restore, shadow_register, write};
use crate::shape::Opcode::{OneByte, TwoByte};
use crate::shape::{in_opcode, plain};
use crate::sized::{accumulator, full_reg_and_rm, reg_and_rm, sized_immediate, sized_reg_and_rm};
use cet_isa::{Insn, Rm, Width};

/// The canonical form of a value, a line each. None exactly where it has no form.
#[rattlefmt::skip]
#[tactic(auto, unfolding(cet_isa::specs::Canonical::canonical))]
pub(crate) fn canonical(insn: Insn) -> Option<Code>
    ensures { result ≡ canonical_of insn }
{
    match insn {
        Insn::EndBr64 => Some(Code::of(&[0xF3, 0x0F, 0x1E, 0xFA])),
        Insn::Nop => Some(Code::of(&[0x90])),
        Insn::Mov { width, dst, src } => sized_reg_and_rm(width, 0x88, src, dst),
        Insn::MovLoad { width, dst, src } => sized_reg_and_rm(width, 0x8A, dst, src),
        Insn::MovImm { width, dst, imm } => sized_immediate(width, 0xC6, dst, imm),
        Insn::MovAbs { width, dst, imm } => constant(width, dst, imm),
        Insn::MovZx { width, dst, src } => byte_source(width, 0xB6, dst, src),
        Insn::MovSx { width, dst, src } => byte_source(width, 0xBE, dst, src),
        Insn::MovSxd { dst, src } => reg_and_rm(Width::B8, OneByte(0x63), dst, src),
        Insn::Lea { width, dst, mem } => full_reg_and_rm(width, OneByte(0x8D), dst, Rm::Mem(mem)),
        Insn::Alu { op, width, dst, src } => sized_reg_and_rm(width, alu_number(op) * 8, src, dst),
        Insn::AluLoad { op, width, dst, src } => sized_reg_and_rm(width, alu_number(op) * 8 + 2, dst, src),
        Insn::AluImm { op, width, dst, imm } => alu_imm(op, width, dst, imm),
        Insn::Test { width, dst, src } => sized_reg_and_rm(width, 0x84, src, dst),
        Insn::TestImm { width, dst, imm } => sized_immediate(width, 0xF6, dst, imm),
        Insn::Unary { op, width, dst } => unary(op, width, dst),
        Insn::Shift { op, width, dst, count } => shift(op, width, dst, count),
        Insn::IMul2 { width, dst, src } => full_reg_and_rm(width, TwoByte(0xAF), dst, src),
        Insn::IMul3 { width, dst, src, imm } => multiply(width, dst, src, imm),
        Insn::MulDiv { op, width, src } => product(op, width, src),
        Insn::Cdq { width } => accumulator(width, 0x99),
        Insn::Cdqe { width } => accumulator(width, 0x98),
        Insn::Push { src } => Some(in_opcode(false, 0x50, false, src, &[])),
        Insn::Pop { dst } => Some(in_opcode(false, 0x58, false, dst, &[])),
        Insn::PushImm { imm } => Some(push_imm(imm)),
        Insn::PushMem { mem } => push_mem(mem),
        Insn::Call { rel } => Some(plain(OneByte(0xE8), &signed32(rel))),
        Insn::CallInd { target, notrack } => indirect(notrack, 2, target),
        Insn::JmpInd { target, notrack } => indirect(notrack, 4, target),
        Insn::Jmp { rel } => Some(jump(rel)),
        Insn::Jcc { cond, rel } => Some(conditional_jump(cond, rel)),
        Insn::SetCc { cond, dst } => set(cond, dst),
        Insn::CMov { cond, width, dst, src } => full_reg_and_rm(width, TwoByte(0x40 + condition_number(cond)), dst, src),
        Insn::Ret => Some(Code::of(&[0xC3])),
        Insn::Leave => Some(Code::of(&[0xC9])),
        Insn::Xchg { width, dst, src } => sized_reg_and_rm(width, 0x86, src, dst),
        Insn::CmpXchg { width, dst, src, lock } => exchange(lock, width, 0xB0, dst, src),
        Insn::XAdd { width, dst, src, lock } => exchange(lock, width, 0xC0, dst, src),
        Insn::RdSsp { dst } => Some(shadow_register(0x1E, 1, dst)),
        Insn::IncSsp { src } => Some(shadow_register(0xAE, 5, src)),
        Insn::RstorSsp { mem } => restore(mem),
        Insn::SavePrevSsp => Some(Code::of(&[0xF3, 0x0F, 0x01, 0xEA])),
        Insn::WrSs { mem, src } => write(mem, src),
        Insn::Syscall => Some(Code::of(&[0x0F, 0x05])),
        Insn::Ud2 => Some(Code::of(&[0x0F, 0x0B])),
        Insn::Hlt => Some(Code::of(&[0xF4])),
    }
}
