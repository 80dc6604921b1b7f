//! Images of static executables and of raw code.
//! `image_of` meets `IsImageOf` and `IsImageError` of `specs/`: what the image of an executable is, and what makes it none.
//! `raw_image` meets `IsRaw` of `cet_rules`. `function_at` finds the function that starts at an address, `byte_at` the byte there.
#![tactic(auto)]

mod contents;
mod error;
mod executable;
mod functions;
pub mod law;
mod layout;
mod lookup;
mod raw;
#[cfg(test)]
mod tests;

pub use cet_rules::{Function, FunctionList, Image, Segment, SegmentList};
pub use contents::{byte_at, byte_or_zero, segment_at};
pub use error::ImageError;
pub use executable::image_of;
pub use lookup::{FuncId, function_at};
pub use raw::{RAW_START, raw_image};
