//! The image of raw code.

ghost use Rattle.std.specs.Prelude.{◌≡◌, ◌≢◌, ◌<◌, ◌≤◌, ◌↔◌, ℕ, [], length, Some, IfOk, IfErr, IsErrOf};
ghost use Rattle.cet_rules.specs.Raw.{IsRaw, raw_start};
ghost use Rattle.cet_image.specs.declared.error.ImageError.TheVariants as errors;
ghost use Rattle.cet_image.specs.ImageOf.{raw_error};

use crate::error::ImageError;
use crate::layout::LONGEST_SEGMENT;
use bitflags::Flags;
use cet_base::{Bytes, NoMemory};
use cet_note::Features;
use cet_rules::{Function, FunctionList, Image, Segment, SegmentList};
use std::alloc::Global;

/// Where raw code starts: the address of its first byte.
pub const RAW_START: u64 = 0x401000;

/// The image of raw code: one segment and one function, of all the bytes, no slots and both features.
///
/// No bytes are refused with `Empty`, and more than 16,777,216 with `Range`.
pub fn raw_image(alloc: Global, bytes: &[u8]) -> Result<Image, ImageError>
    // The image is that of the bytes.
    ensures image { IfOk result (λ image. IsRaw image bytes.now) }
    ensures empty { IsErrOf result errors.Empty ↔ (bytes.now ≡ []) }
    ensures range { (at : ℕ) → IsErrOf result (errors.Range at) ↔ ((at ≡ raw_start) × (16777216 < length bytes.now)) }
    // What is refused is its error, unless memory ran out.
    ensures fault { IfErr result (λ e. e ≢ errors.NoMemory → raw_error bytes.now ≡ Some e) }
{
    if bytes.is_empty() {
        return Err(ImageError::Empty);
    }
    let size = bytes.len() as u64;
    if LONGEST_SEGMENT < size {
        return Err(ImageError::Range { at: RAW_START });
    }
    load(alloc, bytes).map_err(|_| ImageError::NoMemory)
}

fn load(alloc: Global, bytes: &[u8]) -> Result<Image, NoMemory>
    requires some { 0 < length bytes.now }
    requires short { length bytes.now ≤ 16777216 }
    ensures { IfOk result (λ image. IsRaw image bytes.now) }
{
    let size = bytes.len() as u64;
    let mut segments = SegmentList::new(alloc);
    segments.push(Segment {
        start: RAW_START,
        size,
        readable: true,
        writable: false,
        executable: true,
        bytes: Bytes::from_slice(alloc, bytes)?,
    })?;
    let mut functions = FunctionList::new(alloc);
    functions.push(Function {
        start: RAW_START,
        size,
    })?;
    Ok(Image {
        segments,
        functions,
        slots: None,
        entry: RAW_START,
        features: Features::all(),
    })
}
