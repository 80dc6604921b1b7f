//! The bytes that instructions put into their section.
ghost use Rattle.std.specs.Prelude.{◌≡◌, ◌++◌, length, replicate, IfOk, OnOk};
ghost use Rattle.cet_asm.specs.Emitted.{code_of, zeroed, template_uses, of_template};
ghost use Rattle.cet_asm.specs.Zeroed.{cut, cut_where};

use crate::sizes::constant_size;
use cet_base::{Bytes, NoMemory};
use cet_encode::{CODE_LIMIT, Code, encode};
use cet_isa::Insn;
use cet_syntax::Template;

/// Adds bytes at the end.
pub(crate) fn append(out: &mut Bytes, bytes: &[u8]) -> Result<(), NoMemory>
    ensures { OnOk result (out.new ≡ out.old ++ bytes.now) }
{
    for byte in bytes {
        out.push(*byte)?;
    }
    Ok(())
}

/// Adds this many zeros.
pub(crate) fn append_zeros(out: &mut Bytes, count: u64) -> Result<(), NoMemory>
    ensures { OnOk result (out.new ≡ out.old ++ replicate count 0) }
{
    for _done in 0..count {
        out.push(0)?;
    }
    Ok(())
}

/// The form of a value that has one; each value of a text has.
pub(crate) fn code(insn: Insn) -> Result<Code, NoMemory>
    ensures { IfOk result (λ code. code ≡ code_of insn) }
{
    match encode(insn) {
        Ok(code) => Ok(code),
        Err(_) => Err(NoMemory),
    }
}

// Zeros in the place of a field, which lies within the bytes.
fn zero(bytes: &mut [u8], offset: usize, size: usize) -> Result<(), NoMemory>
    ensures { OnOk result (bytes.new ≡ cut offset size bytes.old) }
{
    match offset.checked_add(size) {
        Some(end) if end <= bytes.len() => {
            bytes[offset..end].fill(0);
            Ok(())
        }
        _ => Err(NoMemory),
    }
}

/// The same, where the field waits.
pub(crate) fn zero_where(
    bytes: &mut [u8],
    waits: bool,
    offset: usize,
    size: usize,
) -> Result<(), NoMemory>
    ensures { OnOk result (bytes.new ≡ cut_where waits offset size bytes.old) }
{
    if waits {
        zero(bytes, offset, size)
    } else {
        Ok(())
    }
}

// The fields of an instruction that wait are zero.
fn zero_fields(bytes: &mut [u8], template: &Template<'_>) -> Result<(), NoMemory>
    requires { length bytes.old ≡ length (code_of template.now.insn) }
    ensures { OnOk result (bytes.new ≡ zeroed bytes.old (template_uses template.now)) }
{
    let size = usize::from(constant_size(template.insn));
    let constant = bytes.len().saturating_sub(size);
    zero_where(
        bytes,
        template.memory.is_some(),
        constant.saturating_sub(4),
        4,
    )?;
    zero_where(bytes, template.immediate.is_some(), constant, size)
}

// The form with its fields zeroed.
fn fill(bytes: &mut [u8], code: &[u8], template: &Template<'_>) -> Result<(), NoMemory>
    requires whole { code.now ≡ code_of template.now.insn }
    requires fits { length bytes.old ≡ length code.now }
    ensures { OnOk result (bytes.new ≡ (of_template template.now).bytes) }
{
    bytes.copy_from_slice(code);
    zero_fields(bytes, template)
}

/// Adds an instruction, its fields zeroed.
pub(crate) fn append_template(out: &mut Bytes, template: &Template<'_>) -> Result<(), NoMemory>
    ensures { OnOk result (out.new ≡ out.old ++ (of_template template.now).bytes) }
{
    let code = code(template.insn)?;
    let mut buffer = [0; CODE_LIMIT];
    let bytes = &mut buffer[..code.len()];
    fill(bytes, code.as_bytes(), template)?;
    append(out, bytes)
}
