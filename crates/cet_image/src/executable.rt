//! The image of an executable.

ghost use Rattle.std.specs.Prelude.{◌≡◌, ◌≢◌, ◌≤◌, length, All, IfOk, IfErr, OnOk, None, Some};
ghost use Rattle.cet_image.specs.declared.error.ImageError.TheVariants as errors;
ghost use Rattle.cet_note.specs.declared.fault.NoteError.TheVariants as note_errors;
ghost use Rattle.cet_image.specs.Executable.{segment_of, has_memory, segments_of, is_object, is_slots_name, names_slots, slots_of, AreFeaturesOf};
ghost use Rattle.cet_image.specs.Faults.{span_of, spans_of, note_error};
ghost use Rattle.cet_image.specs.ImageOf.{IsImageOf, IsImageError};

use crate::error::ImageError;
use crate::functions::functions_of;
use crate::layout::layout_error;
use bitflags::Flags;
use cet_base::{Bytes, Items, NoMemory, Span};
use cet_elf::{Exec, ExecSegment, ExecSymbol, SymbolKind};
use cet_note::{Features, NoteError, features, read_note};
use cet_rules::{Image, Segment, SegmentList};
use std::alloc::Global;

// A segment that takes memory.
fn has_memory(segment: &ExecSegment) -> bool
    ensures { result ≡ has_memory segment.now }
{
    segment.size > 0
}

fn span_of(segment: &ExecSegment) -> Span
    ensures { result ≡ span_of segment.now }
{
    Span {
        start: segment.start,
        len: segment.size,
    }
}

// The addresses of the segments that take memory.
fn spans_of(alloc: Global, segments: &[ExecSegment]) -> Result<Items<Span>, NoMemory>
    ensures { IfOk result (λ spans. spans ≡ spans_of segments.now) }
{
    let mut spans = Items::new(alloc);
    for segment in segments {
        if has_memory(segment) {
            spans.push(span_of(segment))?;
        }
    }
    Ok(spans)
}

#[tactic(auto, unfolding(crate::specs::Executable::segment_of))]
fn segment_of(alloc: Global, segment: &ExecSegment) -> Result<Segment, NoMemory>
    ensures { IfOk result (λ s. s ≡ segment_of segment.now) }
{
    Ok(Segment {
        start: segment.start,
        size: segment.size,
        readable: segment.flags & 4 != 0,
        writable: segment.flags & 2 != 0,
        executable: segment.flags & 1 != 0,
        bytes: Bytes::from_slice(alloc, segment.bytes.as_slice())?,
    })
}

// Copies of the segments that take memory.
fn segments_of(alloc: Global, segments: &[ExecSegment]) -> Result<SegmentList, NoMemory>
    ensures { IfOk result (λ copies. copies ≡ segments_of segments.now) }
{
    let mut copies = SegmentList::new(alloc);
    for segment in segments {
        if has_memory(segment) {
            copies.push(segment_of(alloc, segment)?)?;
        }
    }
    Ok(copies)
}

fn is_object(kind: SymbolKind) -> bool
    ensures { result ≡ is_object kind }
{
    matches!(kind, SymbolKind::Object)
}

// The name of the symbol whose addresses hold the shadow stack pointers of fibers that wait.
fn is_slots_name(name: &[u8]) -> bool
    ensures { result ≡ is_slots_name name.now }
{
    name == b"__cet_fibers".as_slice()
}

fn names_slots(symbol: &ExecSymbol) -> bool
    ensures { result ≡ names_slots symbol.now }
{
    is_object(symbol.kind) && is_slots_name(symbol.name.as_slice())
}

// The fiber slots: what the first symbol of that name names.
fn slots_of(symbols: &[ExecSymbol]) -> Option<Span>
    ensures { result ≡ slots_of symbols.now }
{
    let symbol = symbols.iter().find(|symbol| names_slots(symbol))?;
    Some(Span {
        start: symbol.value,
        len: symbol.size,
    })
}

// The features that a note claims, or its first fault.
fn features_of(alloc: Global, notes: &Option<Bytes>) -> Result<Features, ImageError>
    ensures features { IfOk result (AreFeaturesOf notes.now) }
    ensures no_fault { OnOk result (note_error notes.now ≡ None) }
    ensures fault { IfErr result (λ e. e ≢ errors.NoMemory → note_error notes.now ≡ Some e) }
    ensures memory { IfErr result (λ e. e ≢ errors.Note note_errors.NoMemory) }
{
    let Some(bytes) = notes else {
        return Ok(Features::empty());
    };
    match read_note(alloc, bytes.as_slice()) {
        Ok(props) => Ok(features(&props)),
        Err(NoteError::NoMemory) => Err(ImageError::NoMemory),
        Err(error) => Err(ImageError::Note { error }),
    }
}

/// The image of an executable (gABI, "Program Header", "Symbol Table"; System V x86-64 psABI, "Program Property").
///
/// Its segments are those of the executable that take memory; its functions are what the symbols of type STT_FUNC and of a size
/// other than 0 name, each once and in ascending order; its slots are those of the first symbol of type STT_OBJECT named
/// `__cet_fibers`; its features are those that the note claims. No segment of the executable has more bytes than its size, as
/// `read_exec` gives them.
///
/// What is no image is refused with its first fault, in this order: the note cannot be read; there are more than 16 segments or
/// 65,536 functions; a segment is longer than 16,777,216 bytes or passes 2^47; a function passes 2^47; two segments share a byte.
/// `NoMemory` may come at any time. With n symbols it takes n log n steps.
pub fn image_of(alloc: Global, exec: &Exec) -> Result<Image, ImageError>
    requires { All (λ s. length s.bytes ≤ s.size) exec.now.segments }
    // The image is that of the executable.
    ensures image { IfOk result (IsImageOf exec.now) }
    // What is refused is the first fault, unless memory ran out.
    ensures fault { IfErr result (λ e. e ≢ errors.NoMemory → IsImageError exec.now e) }
    // Want of memory is never told as a fault of the note.
    ensures memory { IfErr result (λ e. e ≢ errors.Note note_errors.NoMemory) }
{
    let functions = functions_of(alloc, exec.symbols.as_slice())?;
    let features = features_of(alloc, &exec.notes)?;
    let spans = spans_of(alloc, exec.segments.as_slice())?;
    if let Some(error) = layout_error(spans.as_slice(), functions.as_slice()) {
        return Err(error);
    }
    Ok(Image {
        segments: segments_of(alloc, exec.segments.as_slice())?,
        functions,
        slots: slots_of(exec.symbols.as_slice()),
        entry: exec.entry,
        features,
    })
}
