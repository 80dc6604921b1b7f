//! Labels, and statements as a whole.
ghost use Rattle.std.specs.Prelude.{◌≡◌};
ghost use Rattle.std.specs.Option.{option_map};
ghost use Rattle.cet_syntax.specs.Lines.{label_at};
ghost use Rattle.cet_syntax.specs.Statement.{statement_of};

use crate::directive::directive;
use crate::error::SyntaxError;
use crate::instruction::instruction;
use crate::keyword::Keyword;
use crate::name::Name;
use crate::operands::read_operands;
use crate::pieces::{before, behind, without_front};
use crate::site::site;
use crate::statement::Statement;

const COLON: u8 = b':';

/// The label at the head, a name with a colon at once behind it, and what follows without the spaces before it.
pub fn read_label(bytes: &[u8]) -> Option<(Name<'_>, &[u8])>
    ensures { option_map (λ l. record { name = l.0; rest = l.1.now }) result ≡ label_at bytes.now }
{
    let rest = behind(COLON, bytes)?;
    let name = Name::read(before(COLON, bytes))?;
    Some((name, without_front(rest)))
}

/// The statement of this word, and what stands behind it. The operands come before the ranges of their numbers.
pub fn read_statement(keyword: Keyword, rest: &[u8]) -> Result<Statement<'_>, SyntaxError>
    ensures { result ≡ statement_of keyword rest.now }
{
    match keyword {
        Keyword::Instruction(word) => match read_operands(rest) {
            Some(operands) => {
                let code = instruction(word, operands)?;
                Ok(Statement::Code(code))
            }
            None => Err(SyntaxError::Operand),
        },
        Keyword::Directive(word) => {
            let read = directive(word, rest)?;
            Ok(Statement::Directive(read))
        }
        Keyword::Site(word) => match read_operands(rest) {
            Some(operands) => {
                let read = site(word, operands)?;
                Ok(Statement::Site(read))
            }
            None => Err(SyntaxError::Operand),
        },
    }
}
