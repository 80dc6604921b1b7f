//! Opcodes behind 0F (SDM volume 2, table A-3) and 0F 38.

ghost use Rattle.std.specs.Prelude.{◌≡◌, ◌<◌, ◌/◌, ◌%◌, true, false};
ghost use Rattle.cet_isa.specs.declared.instruction.Insn.{Insn};
ghost use Rattle.cet_isa.specs.declared.operand.Rel.{Rel};
ghost use Rattle.cet_isa.specs.Decoded.{row_at};
ghost use Rattle.cet_isa.specs.Row.{Ends, Alone, Escape, RegAndRm, RegAndMemory, NoRow};
ghost use Rattle.cet_isa.specs.OpcodeMap.{plain, full_width as full_width_of, long_nop as long_nop_row, conditional_move_row, long_branch_row, set_row, exchange_row};
ghost use Rattle.cet_isa.specs.OpcodeMap.{three_byte as three_byte_map, two_byte as two_byte_map};
ghost use Rattle.cet_isa.specs.OpcodeMap.{two_byte_0, two_byte_b, multiply_row, wide_escape as wide_escape_of};
ghost use Rattle.cet_decode.specs.Gives.{Gives};

use crate::kind::{condition, full_width, is_byte, reg_and_memory, reg_and_rm, sized_width};
use crate::operand::{Rex, has_r, has_w, rm};
use crate::reader::{byte, signed32};
use cet_isa::{DecodeError, Insn, Rel};

/// A form of an opcode alone, without REX.
pub(crate) fn alone(rex: Rex, value: Insn, bytes: &[u8]) -> Result<(Insn, &[u8]), DecodeError>
    ensures { Gives (λ x. (x.0, x.1.now)) result (row_at rex (plain rex (Ends (Alone value))) bytes.now) }
{
    if rex.is_some() {
        return Err(DecodeError::Outside);
    }
    Ok((value, bytes))
}

/// NOP with an operand.
pub(crate) fn long_nop(rex: Rex, bytes: &[u8]) -> Result<(Insn, &[u8]), DecodeError>
    ensures { Gives (λ x. (x.0, x.1.now)) result (row_at rex (long_nop_row rex) bytes.now) }
{
    if rex.is_some() {
        return Err(DecodeError::Outside);
    }
    let (modrm, rest) = byte(bytes)?;
    if modrm / 8 % 8 != 0 {
        return Err(DecodeError::Outside);
    }
    let (_operand, rest) = rm(rex, false, modrm, rest)?;
    Ok((Insn::Nop, rest))
}

/// WRSSQ.
fn three_byte(rex: Rex, bytes: &[u8]) -> Result<(Insn, &[u8]), DecodeError>
    ensures { Gives (λ x. (x.0, x.1.now)) result (row_at rex (Escape (three_byte_map rex)) bytes.now) }
{
    let (opcode, rest) = byte(bytes)?;
    if opcode != 0xF6 {
        return Err(DecodeError::Outside);
    }
    let ((src, mem), rest) = reg_and_memory(rex, false, rest)?;
    Ok((Insn::WrSs { mem, src }, rest))
}

/// CMOVcc.
fn conditional_move(rex: Rex, opcode: u8, bytes: &[u8]) -> Result<(Insn, &[u8]), DecodeError>
    ensures { Gives (λ x. (x.0, x.1.now)) result (row_at rex (conditional_move_row rex opcode) bytes.now) }
{
    let cond = condition(opcode)?;
    let ((dst, src), rest) = reg_and_rm(rex, false, false, bytes)?;
    Ok((
        Insn::CMov {
            cond,
            width: full_width(rex),
            dst,
            src,
        },
        rest,
    ))
}

/// Jcc with a displacement of 32 bits.
fn long_branch(rex: Rex, opcode: u8, bytes: &[u8]) -> Result<(Insn, &[u8]), DecodeError>
    ensures { Gives (λ x. (x.0, x.1.now)) result (row_at rex (long_branch_row rex opcode) bytes.now) }
{
    let cond = condition(opcode)?;
    if rex.is_some() {
        return Err(DecodeError::Outside);
    }
    let (rel, rest) = signed32(bytes)?;
    Ok((
        Insn::Jcc {
            cond,
            rel: Rel::L(rel),
        },
        rest,
    ))
}

/// SETcc.
fn set(rex: Rex, opcode: u8, bytes: &[u8]) -> Result<(Insn, &[u8]), DecodeError>
    ensures { Gives (λ x. (x.0, x.1.now)) result (row_at rex (set_row rex opcode) bytes.now) }
{
    let cond = condition(opcode)?;
    if has_w(rex) || has_r(rex) {
        return Err(DecodeError::Outside);
    }
    let (modrm, rest) = byte(bytes)?;
    if modrm / 8 % 8 != 0 {
        return Err(DecodeError::Outside);
    }
    let (dst, rest) = rm(rex, true, modrm, rest)?;
    Ok((Insn::SetCc { cond, dst }, rest))
}

/// IMUL of two operands.
fn multiply(rex: Rex, bytes: &[u8]) -> Result<(Insn, &[u8]), DecodeError>
    ensures { Gives (λ x. (x.0, x.1.now)) result (row_at rex (multiply_row rex) bytes.now) }
{
    let ((dst, src), rest) = reg_and_rm(rex, false, false, bytes)?;
    Ok((
        Insn::IMul2 {
            width: full_width(rex),
            dst,
            src,
        },
        rest,
    ))
}

/// MOVZX.
fn zero_extend(rex: Rex, bytes: &[u8]) -> Result<(Insn, &[u8]), DecodeError>
    ensures { Gives (λ x. (x.0, x.1.now)) result (row_at rex (RegAndRm false true (λ dst src. Alone (Insn.MovZx (full_width_of rex) dst src))) bytes.now) }
{
    let ((dst, src), rest) = reg_and_rm(rex, false, true, bytes)?;
    Ok((
        Insn::MovZx {
            width: full_width(rex),
            dst,
            src,
        },
        rest,
    ))
}

/// MOVSX.
fn sign_extend(rex: Rex, bytes: &[u8]) -> Result<(Insn, &[u8]), DecodeError>
    ensures { Gives (λ x. (x.0, x.1.now)) result (row_at rex (RegAndRm false true (λ dst src. Alone (Insn.MovSx (full_width_of rex) dst src))) bytes.now) }
{
    let ((dst, src), rest) = reg_and_rm(rex, false, true, bytes)?;
    Ok((
        Insn::MovSx {
            width: full_width(rex),
            dst,
            src,
        },
        rest,
    ))
}

/// CMPXCHG.
pub(crate) fn compare_exchange(
    rex: Rex,
    opcode: u8,
    lock: bool,
    bytes: &[u8],
) -> Result<(Insn, &[u8]), DecodeError>
    ensures { Gives (λ x. (x.0, x.1.now)) result (row_at rex (exchange_row rex opcode (λ w dst src. Insn.CmpXchg w dst src lock)) bytes.now) }
{
    let width = sized_width(rex, opcode)?;
    let ((src, dst), rest) = reg_and_memory(rex, is_byte(width), bytes)?;
    Ok((
        Insn::CmpXchg {
            width,
            dst,
            src,
            lock,
        },
        rest,
    ))
}

/// XADD.
pub(crate) fn exchange_add(
    rex: Rex,
    opcode: u8,
    lock: bool,
    bytes: &[u8],
) -> Result<(Insn, &[u8]), DecodeError>
    ensures { Gives (λ x. (x.0, x.1.now)) result (row_at rex (exchange_row rex opcode (λ w dst src. Insn.XAdd w dst src lock)) bytes.now) }
{
    let width = sized_width(rex, opcode)?;
    let ((src, dst), rest) = reg_and_memory(rex, is_byte(width), bytes)?;
    Ok((
        Insn::XAdd {
            width,
            dst,
            src,
            lock,
        },
        rest,
    ))
}

fn wide_escape(rex: Rex, bytes: &[u8]) -> Result<(Insn, &[u8]), DecodeError>
    ensures { Gives (λ x. (x.0, x.1.now)) result (row_at rex (wide_escape_of rex) bytes.now) }
{
    if has_w(rex) {
        three_byte(rex, bytes)
    } else {
        Err(DecodeError::Outside)
    }
}

fn row_0(rex: Rex, opcode: u8, bytes: &[u8]) -> Result<(Insn, &[u8]), DecodeError>
    ensures { Gives (λ x. (x.0, x.1.now)) result (row_at rex (two_byte_0 rex opcode) bytes.now) }
{
    match opcode {
        0x05 => alone(rex, Insn::Syscall, bytes),
        0x0B => alone(rex, Insn::Ud2, bytes),
        _ => Err(DecodeError::Outside),
    }
}

fn row_b(rex: Rex, opcode: u8, bytes: &[u8]) -> Result<(Insn, &[u8]), DecodeError>
    ensures { Gives (λ x. (x.0, x.1.now)) result (row_at rex (two_byte_b rex opcode) bytes.now) }
{
    if opcode < 0xB2 {
        return compare_exchange(rex, opcode, false, bytes);
    }
    match opcode {
        0xB6 => zero_extend(rex, bytes),
        0xBE => sign_extend(rex, bytes),
        _ => Err(DecodeError::Outside),
    }
}

fn two_byte(rex: Rex, opcode: u8, bytes: &[u8]) -> Result<(Insn, &[u8]), DecodeError>
    ensures { Gives (λ x. (x.0, x.1.now)) result (row_at rex (two_byte_map rex opcode) bytes.now) }
{
    if opcode / 16 == 0x0 {
        return row_0(rex, opcode, bytes);
    }
    if opcode == 0x1F {
        return long_nop(rex, bytes);
    }
    if opcode == 0x38 {
        return wide_escape(rex, bytes);
    }
    if opcode / 16 == 0x4 {
        return conditional_move(rex, opcode, bytes);
    }
    if opcode / 16 == 0x8 {
        return long_branch(rex, opcode, bytes);
    }
    if opcode / 16 == 0x9 {
        return set(rex, opcode, bytes);
    }
    if opcode == 0xAF {
        return multiply(rex, bytes);
    }
    if opcode / 16 == 0xB {
        return row_b(rex, opcode, bytes);
    }
    if opcode / 2 == 0x60 {
        return exchange_add(rex, opcode, false, bytes);
    }
    Err(DecodeError::Outside)
}

/// What follows 0F.
pub(crate) fn escape(rex: Rex, bytes: &[u8]) -> Result<(Insn, &[u8]), DecodeError>
    ensures { Gives (λ x. (x.0, x.1.now)) result (row_at rex (Escape (two_byte_map rex)) bytes.now) }
{
    let (opcode, rest) = byte(bytes)?;
    two_byte(rex, opcode, rest)
}
