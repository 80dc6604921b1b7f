//! Instruction values to bytes. Of the forms of a value `encode` gives the canonical one, as `canonical` of `cet_isa` defines it:
//! REX only where needed, the shortest displacement, SIB only where needed, and of its encodings the first that fits.
#![tactic(auto)]

ghost use Rattle.std.specs.Prelude.{◌≡◌, ℕ, ◌++◌, ◌↔◌, List, Some, Ok, IfOk, IsErr, length};
ghost use Rattle.cet_isa.specs.Form.{Form};
ghost use Rattle.cet_isa.specs.Decoded.{decoded};
ghost use Rattle.cet_isa.specs.Canonical.{canonical};

mod arithmetic;
mod code;
mod control;
mod moves;
mod number;
mod operand;
mod register;
mod shadow;
mod shape;
mod sized;
#[cfg(test)]
mod tests;
mod value;

pub use crate::code::{CODE_LIMIT, Code};
use crate::value::canonical as canonical_code;
use cet_isa::{Insn, law};

/// Why a value has no bytes.
#[derive(Clone, Copy, Debug, PartialEq, Eq)]
pub enum EncodeError {
    /// No list of bytes is a form of the value.
    NoForm,
}

/// The canonical form of an instruction value (SDM volume 2, 2.1 and 2.2.1), 1 to 15 bytes. `NoForm` exactly where the value has no
/// form: a width that the instruction does not have, a constant that its field does not hold, index rsp, a scale other than 1, 2, 4
/// and 8, a scale other than 1 without index, rip with a base or an index. It takes no memory.
pub fn encode(insn: Insn) -> Result<Code, EncodeError>
    ensures canonical { IfOk result (λ code. canonical insn ≡ Some code) }
    ensures form { IfOk result (λ code. Form insn code) }
    ensures none { IsErr result ↔ ((b : List ℕ) → ¬ Form insn b) }
    // Whatever follows the code, it is decoded as the value.
    ensures decoded { IfOk result (λ code. (more : List ℕ) → decoded (code ++ more) ≡ Ok (insn, length code)) }
{
    law::canonical_is_form();
    law::form_has_canonical();
    law::form_is_decoded();
    canonical_code(insn).ok_or(EncodeError::NoForm)
}
