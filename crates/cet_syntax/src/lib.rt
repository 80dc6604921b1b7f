//! One statement of assembly text, read into a value: labels, instructions, directives and site words.
//! It meets `statement_of` of `specs/Statement`; the texts of instructions are those of `cet_isa`, their bytes `canonical`.
//! Nothing is known here of sections, offsets or other statements.
#![tactic(auto)]

mod directive;
mod error;
mod fields;
mod instruction;
mod keyword;
mod lines;
mod name;
mod number;
mod operand;
mod operands;
mod pieces;
mod reading;
mod site;
mod statement;
mod template;
#[cfg(test)]
mod tests;
mod word;

pub use error::SyntaxError;
pub use keyword::{DirectiveWord, Keyword, SiteWord, head};
pub use lines::{Item, Numbered, Piece, read_items};
pub use name::{NAME_LIMIT, Name};
pub use number::Number;
pub use operand::{Address, Constant, Memory, Operand, Place};
pub use operands::Operands;
pub use pieces::{before, behind, trimmed};
pub use reading::{read_label, read_statement};
pub use statement::{Directive, NoteWords, Quad, SectionName, Site, Statement};
pub use template::{Code, Reference, Template};
pub use word::Word;
