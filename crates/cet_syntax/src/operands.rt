//! The operands of a statement.
ghost use Rattle.std.specs.Prelude.{◌≡◌};
ghost use Rattle.std.specs.Option.{option_copied};
ghost use Rattle.cet_syntax.specs.Operands.{third, second, operands_of};

use crate::operand::{Operand, read_operand};
use crate::pieces::{before, behind, trimmed};

/// The operands of a statement: at most three.
#[derive(Drop)]
pub enum Operands<'a> {
    Zero,
    One(Operand<'a>),
    Two(Operand<'a>, Operand<'a>),
    Three(Operand<'a>, Operand<'a>, Operand<'a>),
}

const COMMA: u8 = b',';

fn with_third<'a>(
    first: Operand<'a>,
    second: Operand<'a>,
    rest: Option<&'a [u8]>,
) -> Option<Operands<'a>>
    ensures { result ≡ third first.entry second.entry (option_copied rest.entry) }
{
    match rest {
        None => Some(Operands::Two(first, second)),
        Some(rest) => {
            let last = read_operand(trimmed(rest))?;
            Some(Operands::Three(first, second, last))
        }
    }
}

fn with_second<'a>(first: Operand<'a>, rest: Option<&'a [u8]>) -> Option<Operands<'a>>
    ensures { result ≡ second first.entry (option_copied rest.entry) }
{
    match rest {
        None => Some(Operands::One(first)),
        Some(rest) => {
            let next = read_operand(trimmed(before(COMMA, rest)))?;
            with_third(first, next, behind(COMMA, rest))
        }
    }
}

/// The operands that the bytes are.
pub(crate) fn read_operands(bytes: &[u8]) -> Option<Operands<'_>>
    ensures { result ≡ operands_of bytes.now }
{
    if bytes.is_empty() {
        return Some(Operands::Zero);
    }
    let first = read_operand(trimmed(before(COMMA, bytes)))?;
    with_second(first, behind(COMMA, bytes))
}
