//! The opcode maps behind the prefixes F3, F0, 3E, 66 and 2E.

ghost use Rattle.std.specs.Prelude.{◌≡◌, ◌<◌, ◌≤◌, ◌+◌, ◌-◌, zero, suc, true, false, Some, None};
ghost use Rattle.cet_isa.specs.declared.instruction.Insn.{Insn};
ghost use Rattle.cet_isa.specs.Decoded.{row_at};
ghost use Rattle.cet_isa.specs.Row.{Escape};
ghost use Rattle.cet_isa.specs.PrefixedMap.{row, mandatory, lock, notrack, pads, pads_segment};
ghost use Rattle.cet_isa.specs.PrefixedMap.{shadow_read as shadow_read_of, shadow_restore as shadow_restore_of, shadow_increment as shadow_increment_of, mandatory_two_byte, locked_two_byte, nop_two_byte};
ghost use Rattle.cet_decode.specs.Gives.{Gives, shadow_register_at};

use crate::last_quarter::indirect_branch;
use crate::operand::{Rex, has_r, has_w, has_x, memory_operand, rm_register};
use crate::reader::byte;
use crate::two_byte::{alone, compare_exchange, exchange_add, long_nop};
use cet_isa::{DecodeError, Insn, Reg};

/// RDSSPQ and INCSSPQ: ModRM with that extension of the opcode and a register.
fn shadow_register(rex: Rex, digit: u8, bytes: &[u8]) -> Result<(Reg, &[u8]), DecodeError>
    ensures { Gives (λ x. (x.0, x.1.now)) result (shadow_register_at rex digit bytes.now) }
{
    if has_r(rex) {
        return Err(DecodeError::Outside);
    }
    let (modrm, rest) = byte(bytes)?;
    if modrm / 8 % 8 != digit || modrm / 64 != 3 || has_x(rex) {
        return Err(DecodeError::Outside);
    }
    Ok((rm_register(rex, modrm), rest))
}

/// ENDBR64.
fn mark(bytes: &[u8]) -> Result<(Insn, &[u8]), DecodeError>
    ensures { Gives (λ x. (x.0, x.1.now)) result (row_at None (shadow_read_of None) bytes.now) }
{
    let (last, rest) = byte(bytes)?;
    if last != 0xFA {
        return Err(DecodeError::Outside);
    }
    Ok((Insn::EndBr64, rest))
}

/// ENDBR64 and RDSSPQ.
fn shadow_read(rex: Rex, bytes: &[u8]) -> Result<(Insn, &[u8]), DecodeError>
    ensures { Gives (λ x. (x.0, x.1.now)) result (row_at rex (shadow_read_of rex) bytes.now) }
{
    if rex.is_none() {
        return mark(bytes);
    }
    if !has_w(rex) {
        return Err(DecodeError::Outside);
    }
    let (dst, rest) = shadow_register(rex, 1, bytes)?;
    Ok((Insn::RdSsp { dst }, rest))
}

/// INCSSPQ.
fn shadow_increment(rex: Rex, bytes: &[u8]) -> Result<(Insn, &[u8]), DecodeError>
    ensures { Gives (λ x. (x.0, x.1.now)) result (row_at rex (shadow_increment_of rex) bytes.now) }
{
    if !has_w(rex) {
        return Err(DecodeError::Outside);
    }
    let (src, rest) = shadow_register(rex, 5, bytes)?;
    Ok((Insn::IncSsp { src }, rest))
}

/// RSTORSSP and SAVEPREVSSP.
fn shadow_restore(rex: Rex, bytes: &[u8]) -> Result<(Insn, &[u8]), DecodeError>
    ensures { Gives (λ x. (x.0, x.1.now)) result (row_at rex (shadow_restore_of rex) bytes.now) }
{
    if has_w(rex) || has_r(rex) {
        return Err(DecodeError::Outside);
    }
    let (modrm, rest) = byte(bytes)?;
    if rex.is_none() && modrm == 0xEA {
        return Ok((Insn::SavePrevSsp, rest));
    }
    if modrm / 8 % 8 != 5 {
        return Err(DecodeError::Outside);
    }
    let (mem, rest) = memory_operand(rex, modrm, rest)?;
    Ok((Insn::RstorSsp { mem }, rest))
}

fn mandatory_escape(rex: Rex, bytes: &[u8]) -> Result<(Insn, &[u8]), DecodeError>
    ensures { Gives (λ x. (x.0, x.1.now)) result (row_at rex (Escape (mandatory_two_byte rex)) bytes.now) }
{
    let (opcode, rest) = byte(bytes)?;
    match opcode {
        0x01 => shadow_restore(rex, rest),
        0x1E => shadow_read(rex, rest),
        0xAE => shadow_increment(rex, rest),
        _ => Err(DecodeError::Outside),
    }
}

/// Behind F3.
pub(crate) fn mandatory_row(
    rex: Rex,
    opcode: u8,
    bytes: &[u8],
) -> Result<(Insn, &[u8]), DecodeError>
    ensures { Gives (λ x. (x.0, x.1.now)) result (row_at rex (row mandatory rex opcode) bytes.now) }
{
    match opcode {
        0x90 => alone(rex, Insn::Nop, bytes),
        0x0F => mandatory_escape(rex, bytes),
        _ => Err(DecodeError::Outside),
    }
}

fn locked_escape(rex: Rex, bytes: &[u8]) -> Result<(Insn, &[u8]), DecodeError>
    ensures { Gives (λ x. (x.0, x.1.now)) result (row_at rex (Escape (locked_two_byte rex)) bytes.now) }
{
    let (opcode, rest) = byte(bytes)?;
    match opcode {
        0xB0..=0xB1 => compare_exchange(rex, opcode, true, rest),
        0xC0..=0xC1 => exchange_add(rex, opcode, true, rest),
        _ => Err(DecodeError::Outside),
    }
}

/// Behind F0.
pub(crate) fn lock_row(rex: Rex, opcode: u8, bytes: &[u8]) -> Result<(Insn, &[u8]), DecodeError>
    ensures { Gives (λ x. (x.0, x.1.now)) result (row_at rex (row lock rex opcode) bytes.now) }
{
    if opcode == 0x0F {
        locked_escape(rex, bytes)
    } else {
        Err(DecodeError::Outside)
    }
}

/// Behind 3E.
pub(crate) fn notrack_row(rex: Rex, opcode: u8, bytes: &[u8]) -> Result<(Insn, &[u8]), DecodeError>
    ensures { Gives (λ x. (x.0, x.1.now)) result (row_at rex (row notrack rex opcode) bytes.now) }
{
    if opcode != 0xFF || has_w(rex) || has_r(rex) {
        return Err(DecodeError::Outside);
    }
    let (modrm, rest) = byte(bytes)?;
    indirect_branch(rex, modrm, true, rest)
}

fn nop_escape(bytes: &[u8]) -> Result<(Insn, &[u8]), DecodeError>
    ensures { Gives (λ x. (x.0, x.1.now)) result (row_at None (Escape (nop_two_byte None)) bytes.now) }
{
    let (opcode, rest) = byte(bytes)?;
    if opcode == 0x1F {
        long_nop(None, rest)
    } else {
        Err(DecodeError::Outside)
    }
}

/// Behind 66, `more` times and once more.
pub(crate) fn pads_row(more: u8, opcode: u8, bytes: &[u8]) -> Result<(Insn, &[u8]), DecodeError>
    ensures { Gives (λ x. (x.0, x.1.now)) result (row_at None (row (pads more) None opcode) bytes.now) }
{
    if more == 0 && opcode == 0x90 {
        return alone(None, Insn::Nop, bytes);
    }
    if opcode == 0x0F {
        nop_escape(bytes)
    } else {
        Err(DecodeError::Outside)
    }
}

/// Behind 66, `count` times, and 2E.
pub(crate) fn segment_row(count: u8, opcode: u8, bytes: &[u8]) -> Result<(Insn, &[u8]), DecodeError>
    ensures { Gives (λ x. (x.0, x.1.now)) result (row_at None (row (pads_segment count) None opcode) bytes.now) }
{
    if opcode == 0x0F {
        nop_escape(bytes)
    } else {
        Err(DecodeError::Outside)
    }
}
