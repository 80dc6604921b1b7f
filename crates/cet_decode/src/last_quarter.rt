//! One-byte opcodes C0 to FF (SDM volume 2, table A-2).

ghost use Rattle.std.specs.Prelude.{◌≡◌, ◌<◌, ◌/◌, ◌%◌, true, false};
ghost use Rattle.cet_isa.specs.declared.instruction.Insn.{Insn};
ghost use Rattle.cet_isa.specs.declared.operand.Width.{Width};
ghost use Rattle.cet_isa.specs.declared.operand.Rm.{Rm};
ghost use Rattle.cet_isa.specs.declared.operand.Rel.{Rel};
ghost use Rattle.cet_isa.specs.declared.operation.ShiftCount.{ShiftCount};
ghost use Rattle.cet_isa.specs.declared.register.Reg.{Reg};
ghost use Rattle.cet_isa.specs.Decoded.{row_at, operand_at};
ghost use Rattle.cet_isa.specs.Row.{Ends, Alone, Signed8, Signed32, Unsigned8, RegisterOrMemory, Memory};
ghost use Rattle.cet_isa.specs.Operand.{middle_field};
ghost use Rattle.cet_isa.specs.OpcodeMap.{immediate as immediate_end, extension, group, shift_operand, shift_op as shift_op_of, is_byte as is_byte_width};
ghost use Rattle.cet_isa.specs.OpcodeMap.{plain, narrow, shift_group, move_immediate_row, f6_group, f6_operand, inc_dec as inc_dec_of, indirect_branch as indirect_branch_of, fe_group, ff_group, ff_operand, one_byte_c, one_byte_d, one_byte_e, one_byte_f};
ghost use Rattle.cet_decode.specs.Gives.{Gives, immediate_at};

use crate::kind::{full_width, is_byte, shift_op, sized_width};
use crate::operand::{Rex, has_r, has_w, memory_operand, rm};
use crate::reader::{byte, signed8, signed32, unsigned8};
use crate::two_byte::alone;
use cet_isa::{DecodeError, Insn, MulDivOp, Rel, ShiftCount, UnOp, Width};

/// A rotate or a shift by one bit or by CL.
fn shift_fixed(
    rex: Rex,
    modrm: u8,
    width: Width,
    count: ShiftCount,
    bytes: &[u8],
) -> Result<(Insn, &[u8]), DecodeError>
    ensures { Gives (λ x. (x.0, x.1.now)) result (operand_at rex modrm (shift_operand width (λ f. Alone (f count)) (shift_op_of (middle_field modrm))) bytes.now) }
{
    let op = shift_op(modrm / 8 % 8)?;
    let (dst, rest) = rm(rex, is_byte(width), modrm, bytes)?;
    Ok((
        Insn::Shift {
            op,
            width,
            dst,
            count,
        },
        rest,
    ))
}

/// A rotate or a shift by a constant.
fn shift_constant(
    rex: Rex,
    modrm: u8,
    width: Width,
    bytes: &[u8],
) -> Result<(Insn, &[u8]), DecodeError>
    ensures { Gives (λ x. (x.0, x.1.now)) result (operand_at rex modrm (shift_operand width (λ f. Unsigned8 (λ n. f (ShiftCount.Imm n))) (shift_op_of (middle_field modrm))) bytes.now) }
{
    let op = shift_op(modrm / 8 % 8)?;
    let (dst, rest) = rm(rex, is_byte(width), modrm, bytes)?;
    let (count, rest) = unsigned8(rest)?;
    Ok((
        Insn::Shift {
            op,
            width,
            dst,
            count: ShiftCount::Imm(count),
        },
        rest,
    ))
}

fn shift_fixed_of(
    rex: Rex,
    width: Width,
    count: ShiftCount,
    bytes: &[u8],
) -> Result<(Insn, &[u8]), DecodeError>
    ensures { Gives (λ x. (x.0, x.1.now)) result (row_at rex (group rex (λ field. shift_operand width (λ f. Alone (f count)) (shift_op_of field))) bytes.now) }
{
    if has_r(rex) {
        return Err(DecodeError::Outside);
    }
    let (modrm, rest) = byte(bytes)?;
    shift_fixed(rex, modrm, width, count, rest)
}

fn shift_constant_of(rex: Rex, width: Width, bytes: &[u8]) -> Result<(Insn, &[u8]), DecodeError>
    ensures { Gives (λ x. (x.0, x.1.now)) result (row_at rex (group rex (λ field. shift_operand width (λ f. Unsigned8 (λ n. f (ShiftCount.Imm n))) (shift_op_of field))) bytes.now) }
{
    if has_r(rex) {
        return Err(DecodeError::Outside);
    }
    let (modrm, rest) = byte(bytes)?;
    shift_constant(rex, modrm, width, rest)
}

/// Rotates and shifts by a constant.
fn shift_by_constant(rex: Rex, opcode: u8, bytes: &[u8]) -> Result<(Insn, &[u8]), DecodeError>
    ensures { Gives (λ x. (x.0, x.1.now)) result (row_at rex (shift_group rex opcode (λ f. Unsigned8 (λ n. f (ShiftCount.Imm n)))) bytes.now) }
{
    let width = sized_width(rex, opcode)?;
    shift_constant_of(rex, width, bytes)
}

/// Rotates and shifts by one bit or by CL.
fn shift_by_fixed(
    rex: Rex,
    opcode: u8,
    count: ShiftCount,
    bytes: &[u8],
) -> Result<(Insn, &[u8]), DecodeError>
    ensures { Gives (λ x. (x.0, x.1.now)) result (row_at rex (shift_group rex opcode (λ f. Alone (f count))) bytes.now) }
{
    let width = sized_width(rex, opcode)?;
    shift_fixed_of(rex, width, count, bytes)
}

fn move_operand(
    rex: Rex,
    modrm: u8,
    width: Width,
    bytes: &[u8],
) -> Result<(Insn, &[u8]), DecodeError>
    ensures { Gives (λ x. (x.0, x.1.now)) result (operand_at rex modrm (RegisterOrMemory (is_byte_width width) (λ dst. immediate_end width (λ z. Insn.MovImm width dst z))) bytes.now) }
{
    let (dst, rest) = rm(rex, is_byte(width), modrm, bytes)?;
    let (imm, rest) = immediate(width, rest)?;
    Ok((Insn::MovImm { width, dst, imm }, rest))
}

fn move_immediate_of(rex: Rex, width: Width, bytes: &[u8]) -> Result<(Insn, &[u8]), DecodeError>
    ensures { Gives (λ x. (x.0, x.1.now)) result (row_at rex (extension rex 0 (RegisterOrMemory (is_byte_width width) (λ dst. immediate_end width (λ z. Insn.MovImm width dst z)))) bytes.now) }
{
    if has_r(rex) {
        return Err(DecodeError::Outside);
    }
    let (modrm, rest) = byte(bytes)?;
    if modrm / 8 % 8 != 0 {
        return Err(DecodeError::Outside);
    }
    move_operand(rex, modrm, width, rest)
}

/// MOV of a sign-extended constant.
fn move_immediate(rex: Rex, opcode: u8, bytes: &[u8]) -> Result<(Insn, &[u8]), DecodeError>
    ensures { Gives (λ x. (x.0, x.1.now)) result (row_at rex (move_immediate_row rex opcode) bytes.now) }
{
    let width = sized_width(rex, opcode)?;
    move_immediate_of(rex, width, bytes)
}

pub(crate) fn row_c(rex: Rex, opcode: u8, bytes: &[u8]) -> Result<(Insn, &[u8]), DecodeError>
    ensures { Gives (λ x. (x.0, x.1.now)) result (row_at rex (one_byte_c rex opcode) bytes.now) }
{
    if opcode < 0xC2 {
        return shift_by_constant(rex, opcode, bytes);
    }
    match opcode {
        0xC3 => alone(rex, Insn::Ret, bytes),
        0xC6..=0xC7 => move_immediate(rex, opcode, bytes),
        0xC9 => alone(rex, Insn::Leave, bytes),
        _ => Err(DecodeError::Outside),
    }
}

pub(crate) fn row_d(rex: Rex, opcode: u8, bytes: &[u8]) -> Result<(Insn, &[u8]), DecodeError>
    ensures { Gives (λ x. (x.0, x.1.now)) result (row_at rex (one_byte_d rex opcode) bytes.now) }
{
    if opcode < 0xD2 {
        return shift_by_fixed(rex, opcode, ShiftCount::Imm(1), bytes);
    }
    if opcode < 0xD4 {
        return shift_by_fixed(rex, opcode, ShiftCount::Cl, bytes);
    }
    Err(DecodeError::Outside)
}

/// A constant of 8 bits for a byte, else of 32 bits.
fn immediate(width: Width, bytes: &[u8]) -> Result<(i32, &[u8]), DecodeError>
    ensures { Gives (λ x. (x.0, x.1.now)) result (immediate_at width bytes.now) }
{
    if is_byte(width) {
        let (imm, rest) = signed8(bytes)?;
        return Ok((i32::from(imm), rest));
    }
    signed32(bytes)
}

/// CALL.
fn call(rex: Rex, bytes: &[u8]) -> Result<(Insn, &[u8]), DecodeError>
    ensures { Gives (λ x. (x.0, x.1.now)) result (row_at rex (plain rex (Ends (Signed32 (λ z. Insn.Call z)))) bytes.now) }
{
    if rex.is_some() {
        return Err(DecodeError::Outside);
    }
    let (rel, rest) = signed32(bytes)?;
    Ok((Insn::Call { rel }, rest))
}

/// JMP with a displacement of 32 bits.
fn jump_long(rex: Rex, bytes: &[u8]) -> Result<(Insn, &[u8]), DecodeError>
    ensures { Gives (λ x. (x.0, x.1.now)) result (row_at rex (plain rex (Ends (Signed32 (λ z. Insn.Jmp (Rel.L z))))) bytes.now) }
{
    if rex.is_some() {
        return Err(DecodeError::Outside);
    }
    let (rel, rest) = signed32(bytes)?;
    Ok((Insn::Jmp { rel: Rel::L(rel) }, rest))
}

/// JMP with a displacement of 8 bits.
fn jump_short(rex: Rex, bytes: &[u8]) -> Result<(Insn, &[u8]), DecodeError>
    ensures { Gives (λ x. (x.0, x.1.now)) result (row_at rex (plain rex (Ends (Signed8 (λ z. Insn.Jmp (Rel.S z))))) bytes.now) }
{
    if rex.is_some() {
        return Err(DecodeError::Outside);
    }
    let (rel, rest) = signed8(bytes)?;
    Ok((Insn::Jmp { rel: Rel::S(rel) }, rest))
}

pub(crate) fn row_e(rex: Rex, opcode: u8, bytes: &[u8]) -> Result<(Insn, &[u8]), DecodeError>
    ensures { Gives (λ x. (x.0, x.1.now)) result (row_at rex (one_byte_e rex opcode) bytes.now) }
{
    match opcode {
        0xE8 => call(rex, bytes),
        0xE9 => jump_long(rex, bytes),
        0xEB => jump_short(rex, bytes),
        _ => Err(DecodeError::Outside),
    }
}

/// TEST of a register or memory and a constant.
fn test_immediate(
    rex: Rex,
    modrm: u8,
    width: Width,
    bytes: &[u8],
) -> Result<(Insn, &[u8]), DecodeError>
    ensures { Gives (λ x. (x.0, x.1.now)) result (operand_at rex modrm (RegisterOrMemory (is_byte_width width) (λ dst. immediate_end width (λ z. Insn.TestImm width dst z))) bytes.now) }
{
    let (dst, rest) = rm(rex, is_byte(width), modrm, bytes)?;
    let (imm, rest) = immediate(width, rest)?;
    Ok((Insn::TestImm { width, dst, imm }, rest))
}

/// An operation on one operand.
fn unary(
    rex: Rex,
    modrm: u8,
    op: UnOp,
    width: Width,
    bytes: &[u8],
) -> Result<(Insn, &[u8]), DecodeError>
    ensures { Gives (λ x. (x.0, x.1.now)) result (operand_at rex modrm (RegisterOrMemory (is_byte_width width) (λ dst. Alone (Insn.Unary op width dst))) bytes.now) }
{
    let (dst, rest) = rm(rex, is_byte(width), modrm, bytes)?;
    Ok((Insn::Unary { op, width, dst }, rest))
}

/// MUL, IMUL, DIV and IDIV.
fn multiply_divide(
    rex: Rex,
    modrm: u8,
    op: MulDivOp,
    width: Width,
    bytes: &[u8],
) -> Result<(Insn, &[u8]), DecodeError>
    ensures { Gives (λ x. (x.0, x.1.now)) result (operand_at rex modrm (RegisterOrMemory false (λ src. Alone (Insn.MulDiv op width src))) bytes.now) }
{
    let (src, rest) = rm(rex, false, modrm, bytes)?;
    Ok((Insn::MulDiv { op, width, src }, rest))
}

fn f6_operands(
    rex: Rex,
    modrm: u8,
    width: Width,
    bytes: &[u8],
) -> Result<(Insn, &[u8]), DecodeError>
    ensures { Gives (λ x. (x.0, x.1.now)) result (operand_at rex modrm (f6_operand width (middle_field modrm)) bytes.now) }
{
    match modrm / 8 % 8 {
        0 => test_immediate(rex, modrm, width, bytes),
        2 => unary(rex, modrm, UnOp::Not, width, bytes),
        3 => unary(rex, modrm, UnOp::Neg, width, bytes),
        _ if is_byte(width) => Err(DecodeError::Outside),
        4 => multiply_divide(rex, modrm, MulDivOp::Mul, width, bytes),
        5 => multiply_divide(rex, modrm, MulDivOp::IMul1, width, bytes),
        6 => multiply_divide(rex, modrm, MulDivOp::Div, width, bytes),
        7 => multiply_divide(rex, modrm, MulDivOp::IDiv, width, bytes),
        _ => Err(DecodeError::Outside),
    }
}

/// INC and DEC.
fn inc_dec(rex: Rex, modrm: u8, width: Width, bytes: &[u8]) -> Result<(Insn, &[u8]), DecodeError>
    ensures { Gives (λ x. (x.0, x.1.now)) result (operand_at rex modrm (inc_dec_of width (middle_field modrm)) bytes.now) }
{
    match modrm / 8 % 8 {
        0 => unary(rex, modrm, UnOp::Inc, width, bytes),
        1 => unary(rex, modrm, UnOp::Dec, width, bytes),
        _ => Err(DecodeError::Outside),
    }
}

/// CALL and JMP through a register or memory.
pub(crate) fn indirect_branch(
    rex: Rex,
    modrm: u8,
    notrack: bool,
    bytes: &[u8],
) -> Result<(Insn, &[u8]), DecodeError>
    ensures { Gives (λ x. (x.0, x.1.now)) result (operand_at rex modrm (indirect_branch_of notrack (middle_field modrm)) bytes.now) }
{
    let field = modrm / 8 % 8;
    if field != 2 && field != 4 {
        return Err(DecodeError::Outside);
    }
    let (target, rest) = rm(rex, false, modrm, bytes)?;
    if field == 2 {
        return Ok((Insn::CallInd { target, notrack }, rest));
    }
    Ok((Insn::JmpInd { target, notrack }, rest))
}

/// PUSH of memory.
fn push_memory(rex: Rex, modrm: u8, bytes: &[u8]) -> Result<(Insn, &[u8]), DecodeError>
    ensures { Gives (λ x. (x.0, x.1.now)) result (operand_at rex modrm (Memory (λ mem. Alone (Insn.PushMem mem))) bytes.now) }
{
    let (mem, rest) = memory_operand(rex, modrm, bytes)?;
    Ok((Insn::PushMem { mem }, rest))
}

fn ff_operands(rex: Rex, modrm: u8, bytes: &[u8]) -> Result<(Insn, &[u8]), DecodeError>
    ensures { Gives (λ x. (x.0, x.1.now)) result (operand_at rex modrm (ff_operand rex (middle_field modrm)) bytes.now) }
{
    let field = modrm / 8 % 8;
    if field < 2 {
        return inc_dec(rex, modrm, full_width(rex), bytes);
    }
    if has_w(rex) {
        return Err(DecodeError::Outside);
    }
    if field == 6 {
        push_memory(rex, modrm, bytes)
    } else {
        indirect_branch(rex, modrm, false, bytes)
    }
}

fn f6_of(rex: Rex, width: Width, bytes: &[u8]) -> Result<(Insn, &[u8]), DecodeError>
    ensures { Gives (λ x. (x.0, x.1.now)) result (row_at rex (group rex (f6_operand width)) bytes.now) }
{
    if has_r(rex) {
        return Err(DecodeError::Outside);
    }
    let (modrm, rest) = byte(bytes)?;
    f6_operands(rex, modrm, width, rest)
}

fn f6(rex: Rex, opcode: u8, bytes: &[u8]) -> Result<(Insn, &[u8]), DecodeError>
    ensures { Gives (λ x. (x.0, x.1.now)) result (row_at rex (f6_group rex opcode) bytes.now) }
{
    let width = sized_width(rex, opcode)?;
    f6_of(rex, width, bytes)
}

/// INC and DEC of bytes.
fn fe(rex: Rex, bytes: &[u8]) -> Result<(Insn, &[u8]), DecodeError>
    ensures { Gives (λ x. (x.0, x.1.now)) result (row_at rex (fe_group rex) bytes.now) }
{
    if has_w(rex) || has_r(rex) {
        return Err(DecodeError::Outside);
    }
    let (modrm, rest) = byte(bytes)?;
    inc_dec(rex, modrm, Width::B1, rest)
}

fn ff(rex: Rex, bytes: &[u8]) -> Result<(Insn, &[u8]), DecodeError>
    ensures { Gives (λ x. (x.0, x.1.now)) result (row_at rex (ff_group rex) bytes.now) }
{
    if has_r(rex) {
        return Err(DecodeError::Outside);
    }
    let (modrm, rest) = byte(bytes)?;
    ff_operands(rex, modrm, rest)
}

pub(crate) fn row_f(rex: Rex, opcode: u8, bytes: &[u8]) -> Result<(Insn, &[u8]), DecodeError>
    ensures { Gives (λ x. (x.0, x.1.now)) result (row_at rex (one_byte_f rex opcode) bytes.now) }
{
    match opcode {
        0xF4 => alone(rex, Insn::Hlt, bytes),
        0xF6..=0xF7 => f6(rex, opcode, bytes),
        0xFE => fe(rex, bytes),
        0xFF => ff(rex, bytes),
        _ => Err(DecodeError::Outside),
    }
}
