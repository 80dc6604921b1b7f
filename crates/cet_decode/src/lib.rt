//! The form at the head of some bytes: which instruction value it is of, and its length.
//! `decode` answers what `decoded` of `cet_isa` finds: a form, `Short` where the bytes are less than one, `Outside` where
//! no form is there.
#![tactic(auto)]

ghost use Rattle.std.specs.Prelude.{◌≡◌, ℕ, ◌↔◌, Ok, IfOk, IsErrOf};
ghost use Rattle.cet_isa.specs.Decoded.{decoded};
ghost use Rattle.cet_isa.specs.Law.{Begins, IsProperPrefix, IsNoForm};
ghost use Rattle.cet_isa.specs.declared.instruction.Insn.{Insn};

mod instruction;
mod kind;
mod last_quarter;
mod lower_half;
mod one_byte;
mod operand;
mod prefixed;
mod reader;
#[cfg(test)]
mod tests;
mod third_quarter;
mod two_byte;

use crate::instruction::instruction;
pub use cet_isa::DecodeError;
use cet_isa::Insn;

/// The one form at the head of the bytes: its value, and its length in bytes, 1 to 15 (SDM volume 2, 2.1 and 2.3.11).
/// `Short` where the bytes are a proper prefix of a form, as no bytes are; `Outside` where neither they nor any bytes that
/// begin with them have a form at their head. It takes no memory.
pub fn decode(bytes: &[u8]) -> Result<(Insn, u8), DecodeError>
    ensures decoded { result ≡ decoded bytes.now }
    ensures found { IfOk result (λ x. Begins bytes.now x.0 x.1) }
    ensures only { (i : Insn) (n : ℕ) → Begins bytes.now i n → result ≡ Ok (i, n) }
    ensures short { IsErrOf result DecodeError.Short ↔ IsProperPrefix bytes.now }
    ensures outside { IsErrOf result DecodeError.Outside ↔ IsNoForm bytes.now }
{
    measured(bytes)
}

/// `decode`, with the one clause that the others follow from.
#[tactic(auto, unfolding(cet_isa::specs::Decoded::decoded))]
fn measured(bytes: &[u8]) -> Result<(Insn, u8), DecodeError>
    ensures { result ≡ decoded bytes.now }
{
    let (insn, rest) = instruction(bytes)?;
    let length = bytes.len() - rest.len();
    Ok((insn, length as u8))
}
