//! Where the segments and functions of an image may lie.

ghost use Rattle.std.specs.Prelude.{◌≡◌, ◌+◌, ◌^◌, nat_lt, find, option_map};
ghost use Rattle.cet_image.specs.declared.error.ImageError.TheVariants as errors;
ghost use Rattle.cet_image.specs.Faults.{count_error, is_out_of_range, passes_end, range_error, share_byte, overlap_error, layout_error};

use crate::error::ImageError;
use cet_base::Span;
use cet_rules::Function;

/// The most segments of an image.
const MOST_SEGMENTS: usize = 16;

/// The most functions of an image.
const MOST_FUNCTIONS: usize = 65536;

/// The most bytes of a segment.
pub const LONGEST_SEGMENT: u64 = 16_777_216;

/// Where the user's half of a canonical address space ends (SDM volume 1, 3.3.7.1).
const ADDRESS_END: u64 = 1 << 47;

// The `len` addresses from `start` on pass the end of the address space.
fn passes(start: u64, len: u64) -> bool
    ensures { result ≡ nat_lt (2 ^ 47) (start + len) }
{
    start > ADDRESS_END || len > ADDRESS_END - start
}

fn is_out_of_range(segment: Span) -> bool
    ensures { result ≡ is_out_of_range segment }
{
    segment.len > LONGEST_SEGMENT || passes(segment.start, segment.len)
}

fn passes_end(function: Function) -> bool
    ensures { result ≡ passes_end function }
{
    passes(function.start, function.size)
}

fn count_error(segments: &[Span], functions: &[Function]) -> Option<ImageError>
    ensures { result ≡ count_error segments.now functions.now }
{
    (segments.len() > MOST_SEGMENTS || functions.len() > MOST_FUNCTIONS).then_some(
        ImageError::TooMany,
    )
}

fn segment_error(segments: &[Span]) -> Option<ImageError>
    ensures { result ≡ option_map (λ s. errors.Range s.start) (find is_out_of_range segments.now) }
{
    let segment = segments.iter().find(|s| is_out_of_range(**s))?;
    Some(ImageError::Range { at: segment.start })
}

fn function_error(functions: &[Function]) -> Option<ImageError>
    ensures { result ≡ option_map (λ f. errors.Range f.start) (find passes_end functions.now) }
{
    let function = functions.iter().find(|f| passes_end(**f))?;
    Some(ImageError::Range { at: function.start })
}

fn share_byte(s: Span, t: Span) -> bool
    ensures { result ≡ share_byte s t }
{
    s.meets(t)
}

// A segment and the first of those after it that shares a byte with it.
fn overlap_with(s: Span, later: &[Span]) -> Option<ImageError>
    ensures { result ≡ option_map (λ t. errors.Overlap s.start t.start) (find (share_byte s) later.now) }
{
    let t = later.iter().find(|t| share_byte(s, **t))?;
    Some(ImageError::Overlap {
        a: s.start,
        b: t.start,
    })
}

fn overlap_error(segments: &[Span]) -> Option<ImageError>
    ensures { result ≡ overlap_error segments.now }
{
    for i in 0..segments.len() {
        let error = overlap_with(segments[i], &segments[i + 1..]);
        if error.is_some() {
            return error;
        }
    }
    None
}

/// The first fault of where the segments and the functions lie. Overlaps are looked for among at most 16 segments.
pub fn layout_error(segments: &[Span], functions: &[Function]) -> Option<ImageError>
    ensures { result ≡ layout_error segments.now functions.now }
{
    count_error(segments, functions)
        .or_else(|| segment_error(segments))
        .or_else(|| function_error(functions))
        .or_else(|| overlap_error(segments))
}
