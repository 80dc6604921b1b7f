//! The certifier: the verdict on an image.
//! `certify` meets `IsFirst`, and `write_report` writes `report` of the verdict; these stand in the `specs/` of `cet_rules`.
#![tactic(auto)]

mod breach;
mod certifier;
mod fetch;
mod pieces;
mod report;
mod rules;
mod survey;

pub use certifier::certify;
pub use cet_rules::{
    Covered, Function, FunctionList, Image, Piece, PieceKind, Segment, SegmentList, Verdict,
};
pub use fetch::instruction_at;
pub use pieces::{piece_at, prologue_end};
pub use report::write_report;

#[cfg(test)]
mod tests;
