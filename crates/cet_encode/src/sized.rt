//! The shapes of forms by the operands' width: 64 bits by REX.W, bytes by an even opcode.
ghost use Rattle.std.specs.Prelude.{◌≡◌, ◌<◌, ◌≤◌, [], ◌∷◌, Some, length};
ghost use Rattle.cet_isa.specs.OpcodeMap.{is_byte as is_byte_width};
ghost use Rattle.cet_isa.specs.Canonical.{is_wide as is_wide_width, sized as sized_by, no_bytes, immediate, reg_and_rm as reg_and_rm_of, extension as extension_of, accumulator as accumulator_of};
ghost use Rattle.cet_encode.specs.Shape.{opcode_bytes};

use crate::code::Code;
use crate::number::{short_signed, signed32};
use crate::operand::{digit, reg_field, register_or_memory};
use crate::register::Rex;
use crate::shape::{Opcode, Prefix, form, with_modrm};
use cet_isa::{Reg, Rm, Width};

pub(crate) fn is_byte(width: Width) -> bool
    ensures { result ≡ is_byte_width width }
{
    matches!(width, Width::B1)
}

pub(crate) fn is_wide(width: Width) -> bool
    ensures { result ≡ is_wide_width width }
{
    matches!(width, Width::B8)
}

/// An even opcode is for bytes, and the odd one after it for 32 and 64 bits.
pub(crate) fn sized(opcode: u8, width: Width) -> u8
    requires { opcode < 255 }
    ensures { result ≡ sized_by opcode width }
{
    if is_byte(width) { opcode } else { opcode + 1 }
}

/// A register, and an operand that is a register or memory.
pub(crate) fn reg_and_rm(width: Width, opcode: Opcode, reg: Reg, operand: Rm) -> Option<Code>
    ensures { result ≡ reg_and_rm_of width (opcode_bytes opcode) reg operand }
{
    let byte = is_byte(width);
    let rm = register_or_memory(byte, operand);
    with_modrm(
        Prefix::Absent,
        is_wide(width),
        opcode,
        reg_field(byte, reg),
        rm,
        &[],
    )
}

/// `reg_and_rm`, with the opcode by the width.
pub(crate) fn sized_reg_and_rm(width: Width, opcode: u8, reg: Reg, operand: Rm) -> Option<Code>
    requires { opcode < 255 }
    ensures { result ≡ reg_and_rm_of width (sized_by opcode width ∷ []) reg operand }
{
    reg_and_rm(width, Opcode::OneByte(sized(opcode, width)), reg, operand)
}

/// `reg_and_rm` of 32 and 64 bits alone.
pub(crate) fn full_reg_and_rm(width: Width, opcode: Opcode, reg: Reg, operand: Rm) -> Option<Code>
    ensures { result ≡ no_bytes width (reg_and_rm_of width (opcode_bytes opcode) reg operand) }
{
    if is_byte(width) {
        return None;
    }
    reg_and_rm(width, opcode, reg, operand)
}

/// An operand that is a register or memory; the reg field extends the opcode.
pub(crate) fn extension(
    width: Width,
    opcode: Opcode,
    n: u8,
    operand: Rm,
    end: &[u8],
) -> Option<Code>
    requires n { n < 8 }
    requires end { length end.now ≤ 4 }
    ensures { result ≡ extension_of width (opcode_bytes opcode) n operand (Some end.now) }
{
    let rm = register_or_memory(is_byte(width), operand);
    with_modrm(Prefix::Absent, is_wide(width), opcode, digit(n), rm, end)
}

/// A constant of 8 bits for bytes, else of 32 bits, behind an operand that is a register or memory; /0.
pub(crate) fn sized_immediate(width: Width, opcode: u8, dst: Rm, imm: i32) -> Option<Code>
    requires { opcode < 255 }
    ensures { result ≡ extension_of width (sized_by opcode width ∷ []) 0 dst (immediate width imm) }
{
    let opcode = Opcode::OneByte(sized(opcode, width));
    if is_byte(width) {
        extension(width, opcode, 0, dst, &short_signed(imm)?)
    } else {
        extension(width, opcode, 0, dst, &signed32(imm))
    }
}

/// An opcode alone, of 32 and 64 bits.
pub(crate) fn accumulator(width: Width, opcode: u8) -> Option<Code>
    ensures { result ≡ accumulator_of width opcode }
{
    if is_byte(width) {
        return None;
    }
    let rex = Rex {
        w: is_wide(width),
        r: false,
        x: false,
        b: false,
        needed: false,
    };
    Some(form(Prefix::Absent, &rex, Opcode::OneByte(opcode), &[]))
}
