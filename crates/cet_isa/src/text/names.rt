//! Names of registers, widths, operations and conditions.
ghost use Rattle.std.specs.Prelude.{◌≡◌, ◌≤◌, length};
ghost use Rattle.cet_isa.specs.Text.{register_text, width_text, alu_text, unary_text, shift_text, product_text, condition_text};

use crate::operand::Width;
use crate::operation::{AluOp, Cond, MulDivOp, ShiftOp, UnOp};
use crate::register::Reg;

/// The name of the register's 64 bits.
pub(crate) fn register_name(reg: Reg) -> &'static [u8]
    ensures name { result.now ≡ register_text reg }
    ensures room { length result.now ≤ 3 }
{
    match reg {
        Reg::Rax => b"rax",
        Reg::Rcx => b"rcx",
        Reg::Rdx => b"rdx",
        Reg::Rbx => b"rbx",
        Reg::Rsp => b"rsp",
        Reg::Rbp => b"rbp",
        Reg::Rsi => b"rsi",
        Reg::Rdi => b"rdi",
        Reg::R8 => b"r8",
        Reg::R9 => b"r9",
        Reg::R10 => b"r10",
        Reg::R11 => b"r11",
        Reg::R12 => b"r12",
        Reg::R13 => b"r13",
        Reg::R14 => b"r14",
        Reg::R15 => b"r15",
    }
}

pub(crate) fn width_name(width: Width) -> &'static [u8]
    ensures name { result.now ≡ width_text width }
    ensures room { length result.now ≡ 2 }
{
    match width {
        Width::B1 => b".1",
        Width::B4 => b".4",
        Width::B8 => b".8",
    }
}

pub(crate) fn alu_name(op: AluOp) -> &'static [u8]
    ensures name { result.now ≡ alu_text op }
    ensures room { length result.now ≤ 3 }
{
    match op {
        AluOp::Add => b"add",
        AluOp::Or => b"or",
        AluOp::Adc => b"adc",
        AluOp::Sbb => b"sbb",
        AluOp::And => b"and",
        AluOp::Sub => b"sub",
        AluOp::Xor => b"xor",
        AluOp::Cmp => b"cmp",
    }
}

pub(crate) fn unary_name(op: UnOp) -> &'static [u8]
    ensures name { result.now ≡ unary_text op }
    ensures room { length result.now ≡ 3 }
{
    match op {
        UnOp::Inc => b"inc",
        UnOp::Dec => b"dec",
        UnOp::Not => b"not",
        UnOp::Neg => b"neg",
    }
}

pub(crate) fn shift_name(op: ShiftOp) -> &'static [u8]
    ensures name { result.now ≡ shift_text op }
    ensures room { length result.now ≡ 3 }
{
    match op {
        ShiftOp::Rol => b"rol",
        ShiftOp::Ror => b"ror",
        ShiftOp::Shl => b"shl",
        ShiftOp::Shr => b"shr",
        ShiftOp::Sar => b"sar",
    }
}

pub(crate) fn product_name(op: MulDivOp) -> &'static [u8]
    ensures name { result.now ≡ product_text op }
    ensures room { length result.now ≤ 5 }
{
    match op {
        MulDivOp::Mul => b"mul",
        MulDivOp::IMul1 => b"imul1",
        MulDivOp::Div => b"div",
        MulDivOp::IDiv => b"idiv",
    }
}

pub(crate) fn condition_name(cond: Cond) -> &'static [u8]
    ensures name { result.now ≡ condition_text cond }
    ensures room { length result.now ≤ 2 }
{
    match cond {
        Cond::O => b"o",
        Cond::No => b"no",
        Cond::B => b"b",
        Cond::Ae => b"ae",
        Cond::E => b"e",
        Cond::Ne => b"ne",
        Cond::Be => b"be",
        Cond::A => b"a",
        Cond::S => b"s",
        Cond::Ns => b"ns",
        Cond::L => b"l",
        Cond::Ge => b"ge",
        Cond::Le => b"le",
        Cond::G => b"g",
    }
}
