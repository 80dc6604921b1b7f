//! The fields of instructions: numbers in their ranges, and the symbols in the place of numbers.
ghost use Rattle.std.specs.Prelude.{◌≡◌, ◌^◌, Ok, Err, ℤ, Result};
ghost use Rattle.cet_syntax.specs.Number.{unsigned_field};
ghost use Rattle.cet_syntax.specs.Instruction.{reference_to, signed_constant, unsigned_constant, count_field, memory_field, place_field, template as template_of, branch_to as branch_to_name};

use crate::error::SyntaxError;
use crate::name::Name;
use crate::number::Number;
use crate::operand::{Address, Constant, Memory, Place};
use crate::template::{Code, Reference, Template};
use cet_encode::encode;
use cet_isa::{Insn, Mem, Rm, ShiftCount, law};

/// What stands in a field for a name.
pub(crate) const STAND_IN: i32 = i32::MAX;

/// A reference to the address.
pub(crate) fn reference(address: Address<'_>) -> Result<Reference<'_>, SyntaxError>
    ensures { result ≡ reference_to address.entry }
{
    let Address { name, addend } = address;
    match addend.as_i64() {
        Some(addend) => Ok(Reference { name, addend }),
        None => Err(SyntaxError::Range),
    }
}

/// A constant that is sign-extended from 32 bits.
pub(crate) fn signed(constant: Constant<'_>) -> Result<(i32, Option<Reference<'_>>), SyntaxError>
    ensures { result ≡ signed_constant constant.entry }
{
    match constant {
        Constant::Number(number) => match number.as_i32() {
            Some(value) => Ok((value, None)),
            None => Err(SyntaxError::Range),
        },
        Constant::Address(address) => {
            let reference = reference(address)?;
            Ok((STAND_IN, Some(reference)))
        }
    }
}

/// A constant of 64 bits.
pub(crate) fn unsigned(constant: Constant<'_>) -> Result<(u64, Option<Reference<'_>>), SyntaxError>
    ensures { result ≡ unsigned_constant constant.entry }
{
    match constant {
        Constant::Number(number) => match number.as_u64() {
            Some(value) => Ok((value, None)),
            None => Err(SyntaxError::Range),
        },
        Constant::Address(address) => {
            let reference = reference(address)?;
            Ok((STAND_IN as u64, Some(reference)))
        }
    }
}

/// The count of a shift.
pub(crate) fn count(constant: Constant<'_>) -> Result<ShiftCount, SyntaxError>
    ensures { result ≡ count_field constant.entry }
{
    match constant {
        Constant::Number(number) => match number.as_u8() {
            Some(value) => Ok(ShiftCount::Imm(value)),
            None => Err(SyntaxError::Range),
        },
        Constant::Address(_) => Err(SyntaxError::Range),
    }
}

/// A memory operand.
pub(crate) fn memory(memory: Memory<'_>) -> Result<(Mem, Option<Reference<'_>>), SyntaxError>
    ensures { result ≡ memory_field memory.entry }
{
    let Memory {
        base,
        index,
        scale,
        disp,
        rip,
    } = memory;
    let scale = scale.as_u8().ok_or(SyntaxError::Range)?;
    let (disp, reference) = signed(disp)?;
    let mem = Mem {
        base,
        index,
        scale,
        disp,
        rip,
    };
    Ok((mem, reference))
}

/// A register or memory.
pub(crate) fn place(place: Place<'_>) -> Result<(Rm, Option<Reference<'_>>), SyntaxError>
    ensures { result ≡ place_field place.entry }
{
    match place {
        Place::Reg(reg) => Ok((Rm::Reg(reg), None)),
        Place::Memory(operand) => {
            let (mem, reference) = memory(operand)?;
            Ok((Rm::Mem(mem), reference))
        }
    }
}

/// The instruction, which has a form.
pub(crate) fn template<'a>(
    insn: Insn,
    memory: Option<Reference<'a>>,
    immediate: Option<Reference<'a>>,
) -> Result<Code<'a>, SyntaxError>
    ensures { result ≡ template_of insn memory.entry immediate.entry }
{
    law::canonical_is_form();
    match encode(insn) {
        Ok(_) => Ok(Code::Long(Template {
            insn,
            memory,
            immediate,
        })),
        Err(_) => Err(SyntaxError::Range),
    }
}

/// A branch of 32 bits to a name.
pub(crate) fn branch_to(insn: Insn, name: Name<'_>) -> Result<Code<'_>, SyntaxError>
    ensures { result ≡ branch_to_name insn name.entry }
{
    template(insn, None, Some(Reference { name, addend: 0 }))
}
