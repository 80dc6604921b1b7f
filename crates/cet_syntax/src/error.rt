//! What is wrong with a statement.

/// The first thing wrong with a statement by itself.
#[derive(Clone, Copy, Debug, PartialEq, Eq)]
pub enum SyntaxError {
    /// The statement is unknown.
    Word,
    /// The statement does not have these operands.
    Operand,
    /// A number lies outside its field, or the instruction has no form.
    Range,
}
