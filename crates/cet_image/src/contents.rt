//! The bytes of an image by their address.

ghost use Rattle.std.specs.Prelude.{◌≡◌, [], find, slice_index, MatchOption};
ghost use Rattle.std.specs.Option.{option_copied};
ghost use Rattle.cet_rules.specs.Image.{lies_in, bytes_from, byte_at};
ghost use Rattle.cet_image.specs.Contents.{IsSegmentAt};

use cet_rules::{Image, Segment};

/// The byte at `at`, or none outside every segment.
pub fn byte_at(image: &Image, at: u64) -> Option<u8>
    ensures { result ≡ byte_at image.now at }
{
    let segment = segment_at(image, at)?;
    let stored = segment.bytes.as_slice();
    Some(byte_or_zero(stored, (at - segment.start) as usize))
}

/// The segment that `at` lies in, or none outside every segment.
pub fn segment_at(image: &Image, at: u64) -> Option<&Segment>
    ensures { MatchOption result (bytes_from image.now.segments at ≡ []) (λ s. IsSegmentAt image.now at s.now) }
{
    find_segment(image, at)
}

fn find_segment(image: &Image, at: u64) -> Option<&Segment>
    ensures { option_copied result ≡ find (lies_in at) image.now.segments }
{
    image.segments.as_slice().iter().find(|segment| segment.start <= at
        && at - segment.start < segment.size)
}

/// The byte of a segment at `offset` from its start: zero past the stored ones.
pub fn byte_or_zero(stored: &[u8], offset: usize) -> u8
    ensures { result ≡ slice_index stored.now offset }
{
    stored.get(offset).copied().unwrap_or(0)
}
