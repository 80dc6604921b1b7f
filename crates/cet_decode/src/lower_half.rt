//! One-byte opcodes 00 to 7F (SDM volume 2, table A-2).

ghost use Rattle.std.specs.Prelude.{◌≡◌, ◌<◌, ◌/◌, ◌%◌};
ghost use Rattle.cet_isa.specs.declared.instruction.Insn.{Insn};
ghost use Rattle.cet_isa.specs.declared.operand.Width.{Width};
ghost use Rattle.cet_isa.specs.declared.operand.Rm.{Rm};
ghost use Rattle.cet_isa.specs.declared.register.Reg.{Reg};
ghost use Rattle.cet_isa.specs.Decoded.{row_at};
ghost use Rattle.cet_isa.specs.Row.{Ends, Alone, Signed8, Signed32, Escape};
ghost use Rattle.cet_isa.specs.OpcodeMap.{plain, accumulator, sized_reg, alu_row as alu_row_of, push_row, pop_row, movsxd_row, push_immediate_row, multiply_immediate_row, short_branch_row};
ghost use Rattle.cet_isa.specs.OpcodeMap.{one_byte_0_to_3, one_byte_5, one_byte_6};
ghost use Rattle.cet_isa.specs.OpcodeMap.{alu_op as alu_op_of};
ghost use Rattle.cet_decode.specs.Gives.{Gives};

use crate::kind::{
    accumulator_width, alu_op, condition, full_width, is_byte, opcode_register, reg_and_rm,
    sized_width,
};
use crate::operand::{Rex, has_w};
use crate::reader::{signed8, signed32};
use crate::two_byte::escape;
use cet_isa::{AluOp, DecodeError, Insn, Reg, Rel, Rm, Width};

/// ADD to CMP of a register to a register or memory.
fn alu(rex: Rex, op: AluOp, low: u8, bytes: &[u8]) -> Result<(Insn, &[u8]), DecodeError>
    ensures { Gives (λ x. (x.0, x.1.now)) result (row_at rex (sized_reg rex low (λ w reg dst. Insn.Alu op w dst reg)) bytes.now) }
{
    let width = sized_width(rex, low)?;
    let ((src, dst), rest) = reg_and_rm(rex, is_byte(width), is_byte(width), bytes)?;
    Ok((
        Insn::Alu {
            op,
            width,
            dst,
            src,
        },
        rest,
    ))
}

/// ADD to CMP of a register or memory to a register.
fn alu_load(rex: Rex, op: AluOp, low: u8, bytes: &[u8]) -> Result<(Insn, &[u8]), DecodeError>
    ensures { Gives (λ x. (x.0, x.1.now)) result (row_at rex (sized_reg rex low (λ w reg src. Insn.AluLoad op w reg src)) bytes.now) }
{
    let width = sized_width(rex, low)?;
    let ((dst, src), rest) = reg_and_rm(rex, is_byte(width), is_byte(width), bytes)?;
    Ok((
        Insn::AluLoad {
            op,
            width,
            dst,
            src,
        },
        rest,
    ))
}

/// ADD to CMP of a constant to AL.
fn alu_low(rex: Rex, op: AluOp, bytes: &[u8]) -> Result<(Insn, &[u8]), DecodeError>
    ensures { Gives (λ x. (x.0, x.1.now)) result (row_at rex (plain rex (Ends (Signed8 (λ z. Insn.AluImm op Width.B1 (Rm.Reg Reg.Rax) z)))) bytes.now) }
{
    if rex.is_some() {
        return Err(DecodeError::Outside);
    }
    let (imm, rest) = signed8(bytes)?;
    Ok((
        Insn::AluImm {
            op,
            width: Width::B1,
            dst: Rm::Reg(Reg::Rax),
            imm: i32::from(imm),
        },
        rest,
    ))
}

/// ADD to CMP of a constant to EAX or RAX.
fn alu_accumulator(rex: Rex, op: AluOp, bytes: &[u8]) -> Result<(Insn, &[u8]), DecodeError>
    ensures { Gives (λ x. (x.0, x.1.now)) result (row_at rex (accumulator rex (λ w. Signed32 (λ z. Insn.AluImm op w (Rm.Reg Reg.Rax) z))) bytes.now) }
{
    let width = accumulator_width(rex)?;
    let (imm, rest) = signed32(bytes)?;
    Ok((
        Insn::AluImm {
            op,
            width,
            dst: Rm::Reg(Reg::Rax),
            imm,
        },
        rest,
    ))
}

/// The rows of one operation, by the opcode's low three bits.
fn alu_row(rex: Rex, op: AluOp, low: u8, bytes: &[u8]) -> Result<(Insn, &[u8]), DecodeError>
    ensures { Gives (λ x. (x.0, x.1.now)) result (row_at rex (alu_row_of rex op low) bytes.now) }
{
    if low < 2 {
        return alu(rex, op, low, bytes);
    }
    if low < 4 {
        return alu_load(rex, op, low, bytes);
    }
    match low {
        4 => alu_low(rex, op, bytes),
        5 => alu_accumulator(rex, op, bytes),
        _ => Err(DecodeError::Outside),
    }
}

/// PUSH of a register.
fn push(rex: Rex, opcode: u8, bytes: &[u8]) -> Result<(Insn, &[u8]), DecodeError>
    ensures { Gives (λ x. (x.0, x.1.now)) result (row_at rex (push_row rex opcode) bytes.now) }
{
    if has_w(rex) {
        return Err(DecodeError::Outside);
    }
    let src = opcode_register(rex, opcode)?;
    Ok((Insn::Push { src }, bytes))
}

/// POP of a register.
fn pop(rex: Rex, opcode: u8, bytes: &[u8]) -> Result<(Insn, &[u8]), DecodeError>
    ensures { Gives (λ x. (x.0, x.1.now)) result (row_at rex (pop_row rex opcode) bytes.now) }
{
    if has_w(rex) {
        return Err(DecodeError::Outside);
    }
    let dst = opcode_register(rex, opcode)?;
    Ok((Insn::Pop { dst }, bytes))
}

/// MOVSXD.
fn movsxd(rex: Rex, bytes: &[u8]) -> Result<(Insn, &[u8]), DecodeError>
    ensures { Gives (λ x. (x.0, x.1.now)) result (row_at rex (movsxd_row rex) bytes.now) }
{
    if !has_w(rex) {
        return Err(DecodeError::Outside);
    }
    let ((dst, src), rest) = reg_and_rm(rex, false, false, bytes)?;
    Ok((Insn::MovSxd { dst, src }, rest))
}

/// PUSH of a constant of 8 bits.
fn push_short(rex: Rex, bytes: &[u8]) -> Result<(Insn, &[u8]), DecodeError>
    ensures { Gives (λ x. (x.0, x.1.now)) result (row_at rex (push_immediate_row rex Signed8) bytes.now) }
{
    if rex.is_some() {
        return Err(DecodeError::Outside);
    }
    let (imm, rest) = signed8(bytes)?;
    Ok((
        Insn::PushImm {
            imm: i32::from(imm),
        },
        rest,
    ))
}

/// IMUL with a constant of 8 bits.
fn multiply_short(rex: Rex, bytes: &[u8]) -> Result<(Insn, &[u8]), DecodeError>
    ensures { Gives (λ x. (x.0, x.1.now)) result (row_at rex (multiply_immediate_row rex Signed8) bytes.now) }
{
    let ((dst, src), rest) = reg_and_rm(rex, false, false, bytes)?;
    let (imm, rest) = signed8(rest)?;
    Ok((
        Insn::IMul3 {
            width: full_width(rex),
            dst,
            src,
            imm: i32::from(imm),
        },
        rest,
    ))
}

/// PUSH of a constant of 32 bits.
fn push_long(rex: Rex, bytes: &[u8]) -> Result<(Insn, &[u8]), DecodeError>
    ensures { Gives (λ x. (x.0, x.1.now)) result (row_at rex (push_immediate_row rex Signed32) bytes.now) }
{
    if rex.is_some() {
        return Err(DecodeError::Outside);
    }
    let (imm, rest) = signed32(bytes)?;
    Ok((Insn::PushImm { imm }, rest))
}

/// IMUL with a constant of 32 bits.
fn multiply_long(rex: Rex, bytes: &[u8]) -> Result<(Insn, &[u8]), DecodeError>
    ensures { Gives (λ x. (x.0, x.1.now)) result (row_at rex (multiply_immediate_row rex Signed32) bytes.now) }
{
    let ((dst, src), rest) = reg_and_rm(rex, false, false, bytes)?;
    let (imm, rest) = signed32(rest)?;
    Ok((
        Insn::IMul3 {
            width: full_width(rex),
            dst,
            src,
            imm,
        },
        rest,
    ))
}

/// Jcc with a displacement of 8 bits.
pub(crate) fn branch(rex: Rex, opcode: u8, bytes: &[u8]) -> Result<(Insn, &[u8]), DecodeError>
    ensures { Gives (λ x. (x.0, x.1.now)) result (row_at rex (short_branch_row rex opcode) bytes.now) }
{
    let cond = condition(opcode)?;
    if rex.is_some() {
        return Err(DecodeError::Outside);
    }
    let (rel, rest) = signed8(bytes)?;
    Ok((
        Insn::Jcc {
            cond,
            rel: Rel::S(rel),
        },
        rest,
    ))
}

pub(crate) fn row_0_to_3(rex: Rex, opcode: u8, bytes: &[u8]) -> Result<(Insn, &[u8]), DecodeError>
    ensures { Gives (λ x. (x.0, x.1.now)) result (row_at rex (one_byte_0_to_3 rex opcode) bytes.now) }
{
    if opcode == 0x0F {
        escape(rex, bytes)
    } else {
        alu_row(rex, alu_op(opcode / 8), opcode % 8, bytes)
    }
}

pub(crate) fn row_5(rex: Rex, opcode: u8, bytes: &[u8]) -> Result<(Insn, &[u8]), DecodeError>
    ensures { Gives (λ x. (x.0, x.1.now)) result (row_at rex (one_byte_5 rex opcode) bytes.now) }
{
    if opcode < 0x58 {
        push(rex, opcode, bytes)
    } else {
        pop(rex, opcode, bytes)
    }
}

pub(crate) fn row_6(rex: Rex, opcode: u8, bytes: &[u8]) -> Result<(Insn, &[u8]), DecodeError>
    ensures { Gives (λ x. (x.0, x.1.now)) result (row_at rex (one_byte_6 rex opcode) bytes.now) }
{
    match opcode {
        0x63 => movsxd(rex, bytes),
        0x68 => push_long(rex, bytes),
        0x69 => multiply_long(rex, bytes),
        0x6A => push_short(rex, bytes),
        0x6B => multiply_short(rex, bytes),
        _ => Err(DecodeError::Outside),
    }
}
