//! One-byte opcodes 80 to BF (SDM volume 2, table A-2).

ghost use Rattle.std.specs.Prelude.{◌≡◌, ◌<◌, ◌/◌, ◌%◌, true, false};
ghost use Rattle.cet_isa.specs.declared.instruction.Insn.{Insn};
ghost use Rattle.cet_isa.specs.declared.operand.Width.{Width};
ghost use Rattle.cet_isa.specs.declared.operand.Rm.{Rm};
ghost use Rattle.cet_isa.specs.declared.operand.Rel.{Rel};
ghost use Rattle.cet_isa.specs.declared.operation.ShiftCount.{ShiftCount};
ghost use Rattle.cet_isa.specs.declared.register.Reg.{Reg};
ghost use Rattle.cet_isa.specs.Decoded.{row_at, operand_at};
ghost use Rattle.cet_isa.specs.Row.{Ends, Alone, Signed8, Signed32, Unsigned8};
ghost use Rattle.cet_isa.specs.OpcodeMap.{plain, accumulator, narrow, full_width as full_width_of, sized_reg, alu_group, lea_row, constant_row, one_byte_8, one_byte_9, one_byte_a};
ghost use Rattle.cet_decode.specs.Gives.{Gives};

use crate::kind::{
    accumulator_width, alu_op, full_width, is_byte, opcode_register, reg_and_memory, reg_and_rm,
    sized_width,
};
use crate::operand::{Rex, has_r, has_w, is_register_name, rm};
use crate::reader::{byte, signed8, signed32, unsigned8, unsigned32, unsigned64};
use crate::two_byte::alone;
use cet_isa::{DecodeError, Insn, Reg, Rm, Width};

/// ADD to CMP of a constant of 8 bits to a register or memory.
fn alu_group_8(rex: Rex, width: Width, bytes: &[u8]) -> Result<(Insn, &[u8]), DecodeError>
    ensures { Gives (λ x. (x.0, x.1.now)) result (row_at rex (alu_group rex width Signed8) bytes.now) }
{
    if has_r(rex) {
        return Err(DecodeError::Outside);
    }
    let (modrm, rest) = byte(bytes)?;
    let (dst, rest) = rm(rex, is_byte(width), modrm, rest)?;
    let (imm, rest) = signed8(rest)?;
    Ok((
        Insn::AluImm {
            op: alu_op(modrm / 8 % 8),
            width,
            dst,
            imm: i32::from(imm),
        },
        rest,
    ))
}

/// ADD to CMP of a constant of 32 bits to a register or memory.
fn alu_group_32(rex: Rex, width: Width, bytes: &[u8]) -> Result<(Insn, &[u8]), DecodeError>
    ensures { Gives (λ x. (x.0, x.1.now)) result (row_at rex (alu_group rex width Signed32) bytes.now) }
{
    if has_r(rex) {
        return Err(DecodeError::Outside);
    }
    let (modrm, rest) = byte(bytes)?;
    let (dst, rest) = rm(rex, is_byte(width), modrm, rest)?;
    let (imm, rest) = signed32(rest)?;
    Ok((
        Insn::AluImm {
            op: alu_op(modrm / 8 % 8),
            width,
            dst,
            imm,
        },
        rest,
    ))
}

/// ADD to CMP of a constant to a byte.
fn alu_group_byte(rex: Rex, bytes: &[u8]) -> Result<(Insn, &[u8]), DecodeError>
    ensures { Gives (λ x. (x.0, x.1.now)) result (row_at rex (narrow rex (alu_group rex Width.B1 Signed8)) bytes.now) }
{
    if has_w(rex) {
        return Err(DecodeError::Outside);
    }
    alu_group_8(rex, Width::B1, bytes)
}

/// TEST.
fn test(rex: Rex, opcode: u8, bytes: &[u8]) -> Result<(Insn, &[u8]), DecodeError>
    ensures { Gives (λ x. (x.0, x.1.now)) result (row_at rex (sized_reg rex opcode (λ w src dst. Insn.Test w dst src)) bytes.now) }
{
    let width = sized_width(rex, opcode)?;
    let ((src, dst), rest) = reg_and_rm(rex, is_byte(width), is_byte(width), bytes)?;
    Ok((Insn::Test { width, dst, src }, rest))
}

/// XCHG.
fn exchange(rex: Rex, opcode: u8, bytes: &[u8]) -> Result<(Insn, &[u8]), DecodeError>
    ensures { Gives (λ x. (x.0, x.1.now)) result (row_at rex (sized_reg rex opcode (λ w src dst. Insn.Xchg w dst src)) bytes.now) }
{
    let width = sized_width(rex, opcode)?;
    let ((src, dst), rest) = reg_and_rm(rex, is_byte(width), is_byte(width), bytes)?;
    Ok((Insn::Xchg { width, dst, src }, rest))
}

/// MOV from a register.
fn store(rex: Rex, opcode: u8, bytes: &[u8]) -> Result<(Insn, &[u8]), DecodeError>
    ensures { Gives (λ x. (x.0, x.1.now)) result (row_at rex (sized_reg rex opcode (λ w src dst. Insn.Mov w dst src)) bytes.now) }
{
    let width = sized_width(rex, opcode)?;
    let ((src, dst), rest) = reg_and_rm(rex, is_byte(width), is_byte(width), bytes)?;
    Ok((Insn::Mov { width, dst, src }, rest))
}

/// MOV to a register.
fn load(rex: Rex, opcode: u8, bytes: &[u8]) -> Result<(Insn, &[u8]), DecodeError>
    ensures { Gives (λ x. (x.0, x.1.now)) result (row_at rex (sized_reg rex opcode (λ w dst src. Insn.MovLoad w dst src)) bytes.now) }
{
    let width = sized_width(rex, opcode)?;
    let ((dst, src), rest) = reg_and_rm(rex, is_byte(width), is_byte(width), bytes)?;
    Ok((Insn::MovLoad { width, dst, src }, rest))
}

/// LEA.
fn load_address(rex: Rex, bytes: &[u8]) -> Result<(Insn, &[u8]), DecodeError>
    ensures { Gives (λ x. (x.0, x.1.now)) result (row_at rex (lea_row rex) bytes.now) }
{
    let ((dst, mem), rest) = reg_and_memory(rex, false, bytes)?;
    Ok((
        Insn::Lea {
            width: full_width(rex),
            dst,
            mem,
        },
        rest,
    ))
}

pub(crate) fn row_8(rex: Rex, opcode: u8, bytes: &[u8]) -> Result<(Insn, &[u8]), DecodeError>
    ensures { Gives (λ x. (x.0, x.1.now)) result (row_at rex (one_byte_8 rex opcode) bytes.now) }
{
    match opcode {
        0x80 => alu_group_byte(rex, bytes),
        0x81 => alu_group_32(rex, full_width(rex), bytes),
        0x83 => alu_group_8(rex, full_width(rex), bytes),
        0x84..=0x85 => test(rex, opcode, bytes),
        0x86..=0x87 => exchange(rex, opcode, bytes),
        0x88..=0x89 => store(rex, opcode, bytes),
        0x8A..=0x8B => load(rex, opcode, bytes),
        0x8D => load_address(rex, bytes),
        _ => Err(DecodeError::Outside),
    }
}

/// CWDE and CDQE.
fn extend(rex: Rex, bytes: &[u8]) -> Result<(Insn, &[u8]), DecodeError>
    ensures { Gives (λ x. (x.0, x.1.now)) result (row_at rex (accumulator rex (λ w. Alone (Insn.Cdqe w))) bytes.now) }
{
    let width = accumulator_width(rex)?;
    Ok((Insn::Cdqe { width }, bytes))
}

/// CDQ and CQO.
fn spread(rex: Rex, bytes: &[u8]) -> Result<(Insn, &[u8]), DecodeError>
    ensures { Gives (λ x. (x.0, x.1.now)) result (row_at rex (accumulator rex (λ w. Alone (Insn.Cdq w))) bytes.now) }
{
    let width = accumulator_width(rex)?;
    Ok((Insn::Cdq { width }, bytes))
}

pub(crate) fn row_9(rex: Rex, opcode: u8, bytes: &[u8]) -> Result<(Insn, &[u8]), DecodeError>
    ensures { Gives (λ x. (x.0, x.1.now)) result (row_at rex (one_byte_9 rex opcode) bytes.now) }
{
    match opcode {
        0x90 => alone(rex, Insn::Nop, bytes),
        0x98 => extend(rex, bytes),
        0x99 => spread(rex, bytes),
        _ => Err(DecodeError::Outside),
    }
}

/// TEST of AL and a constant.
fn test_low(rex: Rex, bytes: &[u8]) -> Result<(Insn, &[u8]), DecodeError>
    ensures { Gives (λ x. (x.0, x.1.now)) result (row_at rex (plain rex (Ends (Signed8 (λ z. Insn.TestImm Width.B1 (Rm.Reg Reg.Rax) z)))) bytes.now) }
{
    if rex.is_some() {
        return Err(DecodeError::Outside);
    }
    let (imm, rest) = signed8(bytes)?;
    Ok((
        Insn::TestImm {
            width: Width::B1,
            dst: Rm::Reg(Reg::Rax),
            imm: i32::from(imm),
        },
        rest,
    ))
}

/// TEST of EAX or RAX and a constant.
fn test_accumulator(rex: Rex, bytes: &[u8]) -> Result<(Insn, &[u8]), DecodeError>
    ensures { Gives (λ x. (x.0, x.1.now)) result (row_at rex (accumulator rex (λ w. Signed32 (λ z. Insn.TestImm w (Rm.Reg Reg.Rax) z))) bytes.now) }
{
    let width = accumulator_width(rex)?;
    let (imm, rest) = signed32(bytes)?;
    Ok((
        Insn::TestImm {
            width,
            dst: Rm::Reg(Reg::Rax),
            imm,
        },
        rest,
    ))
}

pub(crate) fn row_a(rex: Rex, opcode: u8, bytes: &[u8]) -> Result<(Insn, &[u8]), DecodeError>
    ensures { Gives (λ x. (x.0, x.1.now)) result (row_at rex (one_byte_a rex opcode) bytes.now) }
{
    match opcode {
        0xA8 => test_low(rex, bytes),
        0xA9 => test_accumulator(rex, bytes),
        _ => Err(DecodeError::Outside),
    }
}

/// MOV of a constant of the whole width.
pub(crate) fn constant(rex: Rex, opcode: u8, bytes: &[u8]) -> Result<(Insn, &[u8]), DecodeError>
    ensures { Gives (λ x. (x.0, x.1.now)) result (row_at rex (constant_row rex opcode) bytes.now) }
{
    let dst = opcode_register(rex, opcode)?;
    if opcode < 0xB8 {
        if has_w(rex) || !is_register_name(rex, true, opcode % 8) {
            return Err(DecodeError::Outside);
        }
        let (imm, rest) = unsigned8(bytes)?;
        return Ok((
            Insn::MovAbs {
                width: Width::B1,
                dst,
                imm: u64::from(imm),
            },
            rest,
        ));
    }
    if has_w(rex) {
        let (imm, rest) = unsigned64(bytes)?;
        return Ok((
            Insn::MovAbs {
                width: Width::B8,
                dst,
                imm,
            },
            rest,
        ));
    }
    let (imm, rest) = unsigned32(bytes)?;
    Ok((
        Insn::MovAbs {
            width: Width::B4,
            dst,
            imm: u64::from(imm),
        },
        rest,
    ))
}
