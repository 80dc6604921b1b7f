//! Images, and the rules that a certified image keeps.
//! `specs/` defines what an image holds, the positions and pieces of its functions, when each rule is broken, and `IsFirst`, the
//! verdict. Bodies that compute these stand in `cet_cert`.
#![tactic(auto)]

mod covered;
mod function;
mod image;
mod piece;
mod segment;
mod verdict;

pub use covered::Covered;
pub use function::{Function, FunctionList};
pub use image::Image;
pub use piece::{Piece, PieceKind};
pub use segment::{Segment, SegmentList};
pub use verdict::Verdict;
