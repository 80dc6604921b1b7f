use crate::covered::Covered;

/// What stands at a piece.
#[derive(Clone, Copy, Debug, PartialEq, Eq)]
pub enum PieceKind {
    /// An ENDBR64 at the function's start.
    Prologue,
    /// A constant moved to EAX and a jump through RAX, directly one after the other: a jump table of the one entry `entry`,
    /// whose branch stands at `branch`.
    ConstJump { entry: u64, branch: u64 },
    /// One instruction that belongs to no larger piece.
    Single(Covered),
}

/// A part of a function that is checked as one: the addresses from `at` up to `next`.
#[derive(Clone, Copy, Debug, PartialEq, Eq)]
pub struct Piece {
    pub at: u64,
    pub next: u64,
    pub kind: PieceKind,
}
