//! The parts of a site's sequence.

use cet_isa::Cond;
use cet_syntax::Template;

/// A place of a sequence that one of its branches or constants names.
#[derive(Clone, Copy, Debug, PartialEq, Eq)]
pub enum Mark {
    /// A of Throw.
    Again,
    /// R of Switch, where the context goes on.
    Resumed,
    /// E, behind the sequence.
    Past,
}

/// A part of a sequence.
#[derive(Drop)]
pub enum Part<'a> {
    /// An instruction, in which a field may be the value of a symbol.
    Whole(Template<'a>),
    /// A conditional long branch to a mark.
    Branch(Cond, Mark),
    /// `movabs.4 rcx, R`.
    Resumption,
    Here(Mark),
}
