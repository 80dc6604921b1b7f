//! The instruction that stands at an address.
ghost use Rattle.std.specs.Prelude.{◌≡◌, ℕ, ◌+◌, ◌-◌, ◌^◌, ◌<◌, ◌≤◌, length, min, slice_index, IfSome};
ghost use Rattle.cet_isa.specs.Decoded.{decoded};
ghost use Rattle.cet_isa.specs.Form.{IsBytes};
ghost use Rattle.cet_rules.specs.Image.{end_of, code_from};
ghost use Rattle.cet_rules.specs.Piece.{instruction_at};

use cet_decode::{DecodeError, decode};
use cet_image::{byte_or_zero, segment_at};
use cet_isa::Insn;
use cet_rules::{Covered, Function, Image};

/// No form is longer (SDM volume 2, 2.3.11).
const LONGEST_FORM: u64 = 15;

/// The covered instruction whose form stands at `at` within the function, and its length in bytes.
pub fn instruction_at(image: &Image, function: &Function, at: u64) -> Option<(Covered, u8)>
    ensures value { result ≡ instruction_at image.now function.now at }
    ensures fits { IfSome result (λ x. (0 < x.1) × (at + x.1 ≤ end_of function.now) × (at + x.1 < 2 ^ 64)) }
{
    let (insn, length) = decode_at(image, function, at).ok()?;
    Some((Covered::of(insn)?, length))
}

// What is decoded of the function's code from `at` on: of no more bytes than the longest form has.
fn decode_at(image: &Image, function: &Function, at: u64) -> Result<(Insn, u8), DecodeError>
    ensures { result ≡ decoded (code_from image.now function.now at) }
{
    let Some(segment) = segment_at(image, at) else {
        return Err(DecodeError::Short);
    };
    let stored = segment.bytes.as_slice();
    let offset = (at - segment.start) as usize;
    let count = bytes_left(function, at).min(segment.start + segment.size - at) as usize;
    if offset + count <= stored.len() {
        return decode_window(&stored[offset..offset + count]);
    }
    let window = padded(stored, offset, count);
    decode_window(&window[..count])
}

// That the items of a slice are bytes is told, since `decoded` of longer lists rests on it.
fn decode_window(window: &[u8]) -> Result<(Insn, u8), DecodeError>
    ensures decoded { result ≡ decoded window.now }
    ensures bytes { IsBytes window.now }
{
    decode(window)
}

// The bytes of the function from `at` on, as far as the longest form goes.
fn bytes_left(function: &Function, at: u64) -> u64
    ensures { result ≡ min 15 (end_of function.now - at) }
{
    let left = match at.checked_sub(function.start) {
        Some(offset) => function.size.saturating_sub(offset),
        None => function.size.saturating_add(function.start - at),
    };
    left.min(LONGEST_FORM)
}

// The `count` bytes from `offset` on, with zeros past the stored ones.
fn padded(stored: &[u8], offset: usize, count: usize) -> [u8; 15]
    requires few { count ≤ 15 }
    requires fits { offset + count < 2 ^ 64 }
    ensures long { length result ≡ 15 }
    ensures filled { (k : ℕ) → k < count → slice_index result k ≡ slice_index stored.now (offset + k) }
{
    let mut bytes = [0; 15];
    for k in 0..count {
        bytes[k] = byte_or_zero(stored, offset + k);
    }
    bytes
}
