//! A whole instruction: prefixes, REX and opcode (SDM volume 2, 2.1).

ghost use Rattle.std.specs.Prelude.{◌≡◌, ◌+◌, ◌≤◌, None, Some};
ghost use Rattle.cet_isa.specs.declared.instruction.Insn.{Insn};
ghost use Rattle.cet_isa.specs.Operand.{is_rex as is_rex_byte};
ghost use Rattle.cet_isa.specs.PrefixedMap.{none, mandatory, lock, notrack, pads_segment};
ghost use Rattle.cet_isa.specs.Decoded.{rex_at, opcode_at, after_prefix, after_pads as after_pads_at, instruction_at};
ghost use Rattle.cet_decode.specs.Gives.{Gives};

use crate::one_byte::one_byte;
use crate::operand::{has_r, has_w, has_x};
use crate::prefixed::{lock_row, mandatory_row, notrack_row, pads_row, segment_row};
use crate::reader::byte;
use cet_isa::{DecodeError, Insn};

fn is_rex(first: u8) -> bool
    ensures { result ≡ is_rex_byte first }
{
    0x40 <= first && first < 0x50
}

/// Behind a REX that no prefix stands before.
fn after_rex(rex: u8, bytes: &[u8]) -> Result<(Insn, &[u8]), DecodeError>
    ensures { Gives (λ x. (x.0, x.1.now)) result (rex_at none rex bytes.now) }
{
    let (opcode, rest) = byte(bytes)?;
    one_byte(Some(rex), opcode, rest)
}

/// Behind F3: no row has a use for R, nor for X beside W.
fn after_mandatory(bytes: &[u8]) -> Result<(Insn, &[u8]), DecodeError>
    ensures { Gives (λ x. (x.0, x.1.now)) result (after_prefix mandatory bytes.now) }
{
    let (first, rest) = byte(bytes)?;
    if !is_rex(first) {
        return mandatory_row(None, first, rest);
    }
    let rex = Some(first);
    if has_r(rex) || (has_w(rex) && has_x(rex)) {
        return Err(DecodeError::Outside);
    }
    let (opcode, rest) = byte(rest)?;
    mandatory_row(rex, opcode, rest)
}

/// Behind F0.
fn after_lock(bytes: &[u8]) -> Result<(Insn, &[u8]), DecodeError>
    ensures { Gives (λ x. (x.0, x.1.now)) result (after_prefix lock bytes.now) }
{
    let (first, rest) = byte(bytes)?;
    if !is_rex(first) {
        return lock_row(None, first, rest);
    }
    let (opcode, rest) = byte(rest)?;
    lock_row(Some(first), opcode, rest)
}

/// Behind 3E: no row has a use for R and W.
fn after_notrack(bytes: &[u8]) -> Result<(Insn, &[u8]), DecodeError>
    ensures { Gives (λ x. (x.0, x.1.now)) result (after_prefix notrack bytes.now) }
{
    let (first, rest) = byte(bytes)?;
    if !is_rex(first) {
        return notrack_row(None, first, rest);
    }
    let rex = Some(first);
    if has_r(rex) || has_w(rex) {
        return Err(DecodeError::Outside);
    }
    let (opcode, rest) = byte(rest)?;
    notrack_row(rex, opcode, rest)
}

/// Behind 66, `count` times, and 2E.
fn after_segment(count: u8, bytes: &[u8]) -> Result<(Insn, &[u8]), DecodeError>
    ensures { Gives (λ x. (x.0, x.1.now)) result (opcode_at (pads_segment count) None bytes.now) }
{
    let (opcode, rest) = byte(bytes)?;
    segment_row(count, opcode, rest)
}

/// Behind 66, `more` times and once more, where `left` more may follow.
#[tactic(auto, using(crate::proofs::Pads::pads_step))]
fn after_pads(left: u8, more: u8, bytes: &[u8]) -> Result<(Insn, &[u8]), DecodeError>
    requires { left + more ≤ 5 }
    ensures { Gives (λ x. (x.0, x.1.now)) result (after_pads_at left more bytes.now) }
{
    let (first, rest) = byte(bytes)?;
    if first == 0x66 {
        if left == 0 {
            return Err(DecodeError::Outside);
        }
        return after_pads(left - 1, more + 1, rest);
    }
    if first == 0x2E {
        return after_segment(more + 1, rest);
    }
    pads_row(more, first, rest)
}

/// The instruction at the head of the bytes, and the bytes after it.
#[tactic(auto, unfolding(cet_isa::specs::Decoded::instruction_at))]
pub(crate) fn instruction(bytes: &[u8]) -> Result<(Insn, &[u8]), DecodeError>
    ensures { Gives (λ x. (x.0, x.1.now)) result (instruction_at bytes.now) }
{
    let (first, rest) = byte(bytes)?;
    if is_rex(first) {
        return after_rex(first, rest);
    }
    if first == 0xF3 {
        return after_mandatory(rest);
    }
    if first == 0xF0 {
        return after_lock(rest);
    }
    if first == 0x3E {
        return after_notrack(rest);
    }
    if first == 0x66 {
        return after_pads(5, 0, rest);
    }
    if first == 0x2E {
        return after_segment(0, rest);
    }
    one_byte(None, first, rest)
}
