//! What the rows of the opcode map share: widths, registers in ModRM and in the opcode, conditions, operations.

ghost use Rattle.std.specs.Prelude.{◌≡◌, ◌<◌, if◌then◌else◌, ◌%◌, Result, Option, Ok, Err, Some, None};
ghost use Rattle.cet_isa.specs.Operand.{names_register, middle_field, reg_register as reg_register_of};
ghost use Rattle.cet_isa.specs.OpcodeMap.{full_width as full_width_by, sized_width as sized_width_by, accumulator_width as accumulator_width_by, is_byte as is_byte_width, alu_op as alu_op_of, condition as condition_of, shift_op as shift_op_of};
ghost use Rattle.cet_isa.specs.Decoded.{reg_and_rm_at, reg_and_memory_at};
ghost use Rattle.cet_decode.specs.Gives.{Gives, reg_at, or_outside, opcode_register_at};

use crate::operand::{
    Rex, extended_register, has_b, has_r, has_w, has_x, is_register_name, memory_operand,
    reg_register, rm,
};
use crate::reader::byte;
use cet_isa::{AluOp, Cond, DecodeError, Mem, Reg, Rm, ShiftOp, Width};

/// 32 bits, with REX.W 64 bits.
pub(crate) fn full_width(rex: Rex) -> Width
    ensures { result ≡ full_width_by rex }
{
    if has_w(rex) { Width::B8 } else { Width::B4 }
}

/// An even opcode is for bytes, and the odd one after it for 32 and 64 bits.
pub(crate) fn sized_width(rex: Rex, opcode: u8) -> Result<Width, DecodeError>
    ensures { Gives (λ x. x) result (or_outside (sized_width_by rex opcode)) }
{
    if opcode % 2 == 1 {
        Ok(full_width(rex))
    } else if has_w(rex) {
        Err(DecodeError::Outside)
    } else {
        Ok(Width::B1)
    }
}

/// No REX, or 48 for 64 bits.
pub(crate) fn accumulator_width(rex: Rex) -> Result<Width, DecodeError>
    ensures { Gives (λ x. x) result (or_outside (accumulator_width_by rex)) }
{
    match rex {
        None => Ok(Width::B4),
        Some(0x48) => Ok(Width::B8),
        Some(_) => Err(DecodeError::Outside),
    }
}

pub(crate) fn is_byte(width: Width) -> bool
    ensures { result ≡ is_byte_width width }
{
    matches!(width, Width::B1)
}

/// The register of ModRM's reg field.
pub(crate) fn reg(rex: Rex, is_byte: bool, modrm: u8) -> Result<Reg, DecodeError>
    ensures { Gives (λ x. x) result (reg_at rex is_byte modrm) }
{
    if is_register_name(rex, is_byte, modrm / 8 % 8) {
        Ok(reg_register(rex, modrm))
    } else {
        Err(DecodeError::Outside)
    }
}

pub(crate) fn alu_op(number: u8) -> AluOp
    ensures { result ≡ alu_op_of number }
{
    match number {
        0 => AluOp::Add,
        1 => AluOp::Or,
        2 => AluOp::Adc,
        3 => AluOp::Sbb,
        4 => AluOp::And,
        5 => AluOp::Sub,
        6 => AluOp::Xor,
        _ => AluOp::Cmp,
    }
}

pub(crate) fn shift_op(number: u8) -> Result<ShiftOp, DecodeError>
    ensures { Gives (λ x. x) result (or_outside (shift_op_of number)) }
{
    match number {
        0 => Ok(ShiftOp::Rol),
        1 => Ok(ShiftOp::Ror),
        4 => Ok(ShiftOp::Shl),
        5 => Ok(ShiftOp::Shr),
        7 => Ok(ShiftOp::Sar),
        _ => Err(DecodeError::Outside),
    }
}

/// The condition of an opcode's low four bits.
pub(crate) fn condition(opcode: u8) -> Result<Cond, DecodeError>
    ensures { Gives (λ x. x) result (or_outside (condition_of (opcode % 16))) }
{
    match opcode % 16 {
        0 => Ok(Cond::O),
        1 => Ok(Cond::No),
        2 => Ok(Cond::B),
        3 => Ok(Cond::Ae),
        4 => Ok(Cond::E),
        5 => Ok(Cond::Ne),
        6 => Ok(Cond::Be),
        7 => Ok(Cond::A),
        8 => Ok(Cond::S),
        9 => Ok(Cond::Ns),
        12 => Ok(Cond::L),
        13 => Ok(Cond::Ge),
        14 => Ok(Cond::Le),
        15 => Ok(Cond::G),
        _ => Err(DecodeError::Outside),
    }
}

/// ModRM with a register and an operand that is a register or memory.
pub(crate) fn reg_and_rm(
    rex: Rex,
    byte_reg: bool,
    byte_rm: bool,
    bytes: &[u8],
) -> Result<((Reg, Rm), &[u8]), DecodeError>
    ensures { Gives (λ x. (x.0, x.1.now)) result (reg_and_rm_at rex byte_reg byte_rm bytes.now) }
{
    let (modrm, rest) = byte(bytes)?;
    let register = reg(rex, byte_reg, modrm)?;
    let (operand, rest) = rm(rex, byte_rm, modrm, rest)?;
    Ok(((register, operand), rest))
}

/// ModRM with a register and an operand that is memory.
pub(crate) fn reg_and_memory(
    rex: Rex,
    byte_reg: bool,
    bytes: &[u8],
) -> Result<((Reg, Mem), &[u8]), DecodeError>
    ensures { Gives (λ x. (x.0, x.1.now)) result (reg_and_memory_at rex byte_reg bytes.now) }
{
    let (modrm, rest) = byte(bytes)?;
    let register = reg(rex, byte_reg, modrm)?;
    let (mem, rest) = memory_operand(rex, modrm, rest)?;
    Ok(((register, mem), rest))
}

/// The register in an opcode's low three bits.
pub(crate) fn opcode_register(rex: Rex, opcode: u8) -> Result<Reg, DecodeError>
    ensures { Gives (λ x. x) result (opcode_register_at rex opcode) }
{
    if has_r(rex) || has_x(rex) {
        return Err(DecodeError::Outside);
    }
    Ok(extended_register(has_b(rex), opcode % 8))
}
