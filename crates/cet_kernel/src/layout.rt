//! Where the segments of an image and the stacks stand: whole pages (gABI, "Program Header" and "Program Loading"). Places and sizes of the
//! stacks, and refusing segments that share a page, are this project's own.
ghost use Rattle.std.specs.Prelude.{◌≡◌, ℕ, ◌≤◌, ◌^◌, slice_get, Some, None, find};
ghost use Rattle.cet_rules.specs.declared.segment.Segment.{Segment};
ghost use Rattle.cet_rules.specs.Regular.{IsSegment};
ghost use Rattle.cet_process.specs.Start.{page_of, page_above, first_page, end_of_pages, kind_of, is_in_place, share_a_page, shared_or, first_shared, load_error, mode_of};

use bitflags::Flags;
use cet_isa::Mode;
use cet_mem::Kind;
use cet_note::Features;
use cet_process::LoadError;
use cet_rules::{Image, Segment};

/// The bytes of a page.
const PAGE: u64 = 4096;

/// Where pages of segments end at the latest.
const SEGMENTS_END: u64 = (1 << 32) - 65536;

/// The first address of the main stack.
pub const STACK_START: u64 = 0x7ffe_0000_0000;

/// The bytes of the main stack.
pub const STACK_SIZE: u64 = 1_048_576;

/// The first address of the main shadow stack.
pub const SHADOW_STACK_START: u64 = 0x7ffd_0000_0000;

/// The bytes of a thread's shadow stack.
pub const SHADOW_STACK_SIZE: u64 = 65536;

/// The bytes that stay free on each side of a region that a system call maps.
pub const GAP: u64 = 65536;

/// Where the first mapping may go.
pub const FIRST_FRESH: u64 = 0x1_0000_0000;

/// The start of the page that `a` lies in.
fn page_of(a: u64) -> u64
    ensures { result ≡ page_of a }
{
    a / PAGE * PAGE
}

/// The least multiple of 4,096 that is not below `a`.
pub fn page_above(a: u64) -> u64
    requires { a ≤ 2 ^ 48 }
    ensures { result ≡ page_above a }
{
    page_of(a + (PAGE - 1))
}

/// The start of the first page of a segment.
pub fn first_page(segment: &Segment) -> u64
    ensures { result ≡ first_page segment.now }
{
    page_of(segment.start)
}

/// The end of the last page of a segment.
pub fn end_of_pages(segment: &Segment) -> u64
    requires { IsSegment segment.now }
    ensures { result ≡ end_of_pages segment.now }
{
    page_above(segment.start + segment.size)
}

/// What the pages of a segment may be used for: an executable one is code, whatever else it is.
pub fn kind_of(segment: &Segment) -> Kind
    ensures { result ≡ kind_of segment.now }
{
    if segment.executable {
        Kind::Code
    } else if segment.writable {
        Kind::Write
    } else {
        Kind::Read
    }
}

/// Whether the pages of a segment are within 4,096 to 2^32 - 65,536.
fn is_in_place(segment: &Segment) -> bool
    requires { IsSegment segment.now }
    ensures { result ≡ is_in_place segment.now }
{
    first_page(segment) >= PAGE && end_of_pages(segment) <= SEGMENTS_END
}

/// Whether two segments have a page in common.
fn share_a_page(s: &Segment, t: &Segment) -> bool
    requires first { IsSegment s.now }
    requires second { IsSegment t.now }
    ensures { result ≡ share_a_page s.now t.now }
{
    first_page(s).max(first_page(t)) < end_of_pages(s).min(end_of_pages(t))
}

/// What of CET is on: what the note of the image claims.
pub fn mode_of(features: Features) -> Mode
    ensures { result ≡ mode_of features }
{
    Mode {
        ibt: features.bits() & 1 == 1,
        shstk: (features.bits() >> 1) & 1 == 1,
    }
}

/// The first segment out of place, or else the first pair that shares a page.
pub fn load_error(image: &Image) -> Option<LoadError>
    ensures { result ≡ load_error image.now }
{
    let segments = image.segments.as_slice();
    for segment in segments {
        if !is_in_place(segment) {
            return Some(LoadError::Place { at: segment.start });
        }
    }
    first_shared(segments)
}

/// The first pair that shares a page, by its first and then by its second segment.
fn first_shared(segments: &[Segment]) -> Option<LoadError>
    requires { (k : ℕ) (s : Segment) → slice_get segments.now k ≡ Some s → IsSegment s }
    ensures { result ≡ first_shared segments.now }
{
    for i in 0..segments.len() {
        let error = shared_with(&segments[i], &segments[i + 1..]);
        if error.is_some() {
            return error;
        }
    }
    None
}

/// The pair of a segment and the first of these that shares a page with it.
fn shared_with(s: &Segment, later: &[Segment]) -> Option<LoadError>
    requires first { IsSegment s.now }
    requires later { (k : ℕ) (t : Segment) → slice_get later.now k ≡ Some t → IsSegment t }
    ensures { result ≡ shared_or s.now (find (share_a_page s.now) later.now) None }
{
    for t in later {
        if share_a_page(s, t) {
            return Some(LoadError::Shared {
                a: s.start,
                b: t.start,
            });
        }
    }
    None
}
