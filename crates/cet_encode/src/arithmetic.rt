//! Arithmetic.
ghost use Rattle.std.specs.Prelude.{◌≡◌, ◌<◌};
ghost use Rattle.cet_isa.specs.declared.instruction.Insn.{Insn};
ghost use Rattle.cet_isa.specs.Canonical.{canonical, alu_number as alu_number_of, shift_number as shift_number_of, product_number as product_number_of};
ghost use Rattle.cet_isa.specs.Canonical.{unary as unary_of, shift as shift_of};

use crate::code::Code;
use crate::number::{short_signed, signed32};
use crate::operand::{reg_field, register_or_memory};
use crate::shape::{Opcode, Prefix, with_modrm};
use crate::sized::{extension, is_byte, is_wide, sized};
use cet_isa::{AluOp, MulDivOp, Reg, Rm, ShiftCount, ShiftOp, UnOp, Width};

/// The number of an operation in the opcode or its extension.
pub(crate) fn alu_number(op: AluOp) -> u8
    ensures number { result ≡ alu_number_of op }
    ensures bound { result < 8 }
{
    match op {
        AluOp::Add => 0,
        AluOp::Or => 1,
        AluOp::Adc => 2,
        AluOp::Sbb => 3,
        AluOp::And => 4,
        AluOp::Sub => 5,
        AluOp::Xor => 6,
        AluOp::Cmp => 7,
    }
}

fn shift_number(op: ShiftOp) -> u8
    ensures number { result ≡ shift_number_of op }
    ensures bound { result < 8 }
{
    match op {
        ShiftOp::Rol => 0,
        ShiftOp::Ror => 1,
        ShiftOp::Shl => 4,
        ShiftOp::Shr => 5,
        ShiftOp::Sar => 7,
    }
}

fn product_number(op: MulDivOp) -> u8
    ensures number { result ≡ product_number_of op }
    ensures bound { result < 8 }
{
    match op {
        MulDivOp::Mul => 4,
        MulDivOp::IMul1 => 5,
        MulDivOp::Div => 6,
        MulDivOp::IDiv => 7,
    }
}

/// An operation with a constant: ib where it fits, else id.
#[tactic(auto, unfolding(cet_isa::specs::Canonical::canonical))]
pub(crate) fn alu_imm(op: AluOp, width: Width, dst: Rm, imm: i32) -> Option<Code>
    ensures { result ≡ canonical (Insn.AluImm op width dst imm) }
{
    let n = alu_number(op);
    if is_byte(width) {
        return extension(width, Opcode::OneByte(0x80), n, dst, &short_signed(imm)?);
    }
    match short_signed(imm) {
        Some(bytes) => extension(width, Opcode::OneByte(0x83), n, dst, &bytes),
        None => extension(width, Opcode::OneByte(0x81), n, dst, &signed32(imm)),
    }
}

/// INC, DEC, NOT and NEG.
pub(crate) fn unary(op: UnOp, width: Width, dst: Rm) -> Option<Code>
    ensures { result ≡ unary_of op width dst }
{
    let inc_dec = Opcode::OneByte(sized(0xFE, width));
    let not_neg = Opcode::OneByte(sized(0xF6, width));
    match op {
        UnOp::Inc => extension(width, inc_dec, 0, dst, &[]),
        UnOp::Dec => extension(width, inc_dec, 1, dst, &[]),
        UnOp::Not => extension(width, not_neg, 2, dst, &[]),
        UnOp::Neg => extension(width, not_neg, 3, dst, &[]),
    }
}

/// A rotate or a shift, by CL, by one bit or by a constant.
pub(crate) fn shift(op: ShiftOp, width: Width, dst: Rm, count: ShiftCount) -> Option<Code>
    ensures { result ≡ shift_of op width dst count }
{
    let n = shift_number(op);
    match count {
        ShiftCount::Cl => extension(width, Opcode::OneByte(sized(0xD2, width)), n, dst, &[]),
        ShiftCount::Imm(1) => extension(width, Opcode::OneByte(sized(0xD0, width)), n, dst, &[]),
        ShiftCount::Imm(bits) => extension(
            width,
            Opcode::OneByte(sized(0xC0, width)),
            n,
            dst,
            &[bits],
        ),
    }
}

/// IMUL of two operands and a constant: ib where it fits, else id.
#[tactic(auto, unfolding(cet_isa::specs::Canonical::canonical))]
pub(crate) fn multiply(width: Width, dst: Reg, src: Rm, imm: i32) -> Option<Code>
    ensures { result ≡ canonical (Insn.IMul3 width dst src imm) }
{
    if is_byte(width) {
        return None;
    }
    let reg = reg_field(false, dst);
    let rm = register_or_memory(false, src);
    match short_signed(imm) {
        Some(bytes) => with_modrm(
            Prefix::Absent,
            is_wide(width),
            Opcode::OneByte(0x6B),
            reg,
            rm,
            &bytes,
        ),
        None => with_modrm(
            Prefix::Absent,
            is_wide(width),
            Opcode::OneByte(0x69),
            reg,
            rm,
            &signed32(imm),
        ),
    }
}

/// MUL, IMUL, DIV and IDIV by way of rax and rdx.
#[tactic(auto, unfolding(cet_isa::specs::Canonical::canonical))]
pub(crate) fn product(op: MulDivOp, width: Width, src: Rm) -> Option<Code>
    ensures { result ≡ canonical (Insn.MulDiv op width src) }
{
    if is_byte(width) {
        return None;
    }
    extension(width, Opcode::OneByte(0xF7), product_number(op), src, &[])
}
