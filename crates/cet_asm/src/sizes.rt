//! The fields of an instruction that may wait for the value of a symbol.
ghost use Rattle.std.specs.Prelude.{◌≡◌};
ghost use Rattle.cet_asm.specs.Emitted.{constant_size as constant_size_of, short_or_long_size, by_width as by_width_of, memory_in as memory_in_of, jump_size as jump_size_of, count_size as count_size_of, long_constant_size as long_constant_size_of, absolute_kind as absolute_kind_of, memory_operand as memory_operand_of, is_rip_relative as is_rip_relative_of, constant_kind as constant_kind_of, constant_bias as constant_bias_of};

use cet_isa::{Insn, Mem, Rel, Rm, ShiftCount, Width};

/// R_X86_64_64: the value, 64 bits (psABI, "Relocation Types").
pub(crate) const R_X86_64_64: u32 = 1;
/// R_X86_64_PC32: the value less the place, 32 bits with a sign.
pub(crate) const R_X86_64_PC32: u32 = 2;
/// R_X86_64_PLT32: the same, of a CALL.
pub(crate) const R_X86_64_PLT32: u32 = 4;
/// R_X86_64_32: the value, 32 bits without a sign.
pub(crate) const R_X86_64_32: u32 = 10;
/// R_X86_64_32S: the value, 32 bits with a sign.
pub(crate) const R_X86_64_32S: u32 = 11;

fn by_width(width: Width, byte: u8, other: u8) -> u8
    ensures { result ≡ by_width_of width byte other }
{
    match width {
        Width::B1 => byte,
        _ => other,
    }
}

// A constant of 8 bits where it fits, else of 32.
fn short_or_long(imm: i32) -> u8
    ensures { result ≡ short_or_long_size imm }
{
    if i8::try_from(imm).is_ok() { 1 } else { 4 }
}

fn jump_size(rel: Rel) -> u8
    ensures { result ≡ jump_size_of rel }
{
    match rel {
        Rel::S(_) => 1,
        Rel::L(_) => 4,
    }
}

fn count_size(count: ShiftCount) -> u8
    ensures { result ≡ count_size_of count }
{
    match count {
        ShiftCount::Imm(1) | ShiftCount::Cl => 0,
        ShiftCount::Imm(_) => 1,
    }
}

fn long_constant_size(width: Width) -> u8
    ensures { result ≡ long_constant_size_of width }
{
    match width {
        Width::B1 => 1,
        Width::B4 => 4,
        Width::B8 => 8,
    }
}

/// The bytes of the constant or branch displacement that ends the canonical form.
pub(crate) fn constant_size(insn: Insn) -> u8
    ensures { result ≡ constant_size_of insn }
{
    match insn {
        Insn::MovImm { width, .. } => by_width(width, 1, 4),
        Insn::MovAbs { width, .. } => long_constant_size(width),
        Insn::AluImm { width, imm, .. } => by_width(width, 1, short_or_long(imm)),
        Insn::TestImm { width, .. } => by_width(width, 1, 4),
        Insn::Shift { count, .. } => count_size(count),
        Insn::IMul3 { imm, .. } => short_or_long(imm),
        Insn::PushImm { imm } => short_or_long(imm),
        Insn::Call { .. } => 4,
        Insn::Jmp { rel } => jump_size(rel),
        Insn::Jcc { rel, .. } => jump_size(rel),
        _ => 0,
    }
}

fn memory_in(operand: Rm) -> Option<Mem>
    ensures { result ≡ memory_in_of operand }
{
    match operand {
        Rm::Reg(_) => None,
        Rm::Mem(mem) => Some(mem),
    }
}

/// The memory operand, where there is one.
pub(crate) fn memory_operand(insn: Insn) -> Option<Mem>
    ensures { result ≡ memory_operand_of insn }
{
    match insn {
        Insn::Mov { dst, .. } => memory_in(dst),
        Insn::MovLoad { src, .. } => memory_in(src),
        Insn::MovImm { dst, .. } => memory_in(dst),
        Insn::MovZx { src, .. } => memory_in(src),
        Insn::MovSx { src, .. } => memory_in(src),
        Insn::MovSxd { src, .. } => memory_in(src),
        Insn::Lea { mem, .. } => Some(mem),
        Insn::Alu { dst, .. } => memory_in(dst),
        Insn::AluLoad { src, .. } => memory_in(src),
        Insn::AluImm { dst, .. } => memory_in(dst),
        Insn::Test { dst, .. } => memory_in(dst),
        Insn::TestImm { dst, .. } => memory_in(dst),
        Insn::Unary { dst, .. } => memory_in(dst),
        Insn::Shift { dst, .. } => memory_in(dst),
        Insn::IMul2 { src, .. } => memory_in(src),
        Insn::IMul3 { src, .. } => memory_in(src),
        Insn::MulDiv { src, .. } => memory_in(src),
        Insn::PushMem { mem } => Some(mem),
        Insn::CallInd { target, .. } => memory_in(target),
        Insn::JmpInd { target, .. } => memory_in(target),
        Insn::SetCc { dst, .. } => memory_in(dst),
        Insn::CMov { src, .. } => memory_in(src),
        Insn::Xchg { dst, .. } => memory_in(dst),
        Insn::CmpXchg { dst, .. } => Some(dst),
        Insn::XAdd { dst, .. } => Some(dst),
        Insn::RstorSsp { mem } => Some(mem),
        Insn::WrSs { mem, .. } => Some(mem),
        Insn::EndBr64 | Insn::Nop | Insn::Ret | Insn::Leave | Insn::SavePrevSsp => None,
        Insn::Syscall | Insn::Ud2 | Insn::Hlt => None,
        Insn::MovAbs { .. } => None,
        Insn::Cdq { .. } => None,
        Insn::Cdqe { .. } => None,
        Insn::Push { .. } => None,
        Insn::Pop { .. } => None,
        Insn::PushImm { .. } => None,
        Insn::Call { .. } => None,
        Insn::Jmp { .. } => None,
        Insn::Jcc { .. } => None,
        Insn::RdSsp { .. } => None,
        Insn::IncSsp { .. } => None,
    }
}

/// Whether the memory operand counts from the next instruction.
pub(crate) fn is_rip_relative(insn: Insn) -> bool
    ensures { result ≡ is_rip_relative_of (memory_operand_of insn) }
{
    match memory_operand(insn) {
        Some(mem) => mem.rip,
        None => false,
    }
}

/// The relocation type of the constant's field.
pub(crate) fn constant_kind(insn: Insn) -> u32
    ensures { result ≡ constant_kind_of insn }
{
    match insn {
        Insn::Call { .. } => R_X86_64_PLT32,
        Insn::Jmp { .. } | Insn::Jcc { .. } => R_X86_64_PC32,
        Insn::MovAbs { width, .. } => absolute_kind(width),
        _ => R_X86_64_32S,
    }
}

fn absolute_kind(width: Width) -> u32
    ensures { result ≡ absolute_kind_of width }
{
    match width {
        Width::B8 => R_X86_64_64,
        _ => R_X86_64_32,
    }
}

/// How much a branch counts from its end.
pub(crate) fn constant_bias(insn: Insn) -> u8
    ensures { result ≡ constant_bias_of insn }
{
    match insn {
        Insn::Call { .. } | Insn::Jmp { .. } | Insn::Jcc { .. } => 4,
        _ => 0,
    }
}
