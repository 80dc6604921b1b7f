//! The segments and the note of an executable, laid out in its file.

ghost use Rattle.std.specs.Prelude.{◌≡◌, ◌≤◌, ◌<◌, ◌+◌, ℕ, List, ◌++◌, [], ◌∷◌, IfOk, OnOk, All, length, replicate, map, codes, position};
ghost use Rattle.cet_elf.specs.Layout.{part_with};
ghost use Rattle.cet_exec.specs.Regular.{SegmentFits};
ghost use Rattle.cet_exec.specs.Written.{gap, aligned, spaced, laid, load as load_of, loads, bytes_of, begins_with as begins_with_in, home as home_of, property as property_of, note_program, own_bytes, note_bytes, note_programs, section_flags as section_flags_of, segment_part, segment_parts, segment_name as segment_name_of, is_linked as is_linked_in, is_left_of, note_part, note_section, note_sections};
ghost use Rattle.cet_exec.specs.Layout.{Adds, AddsSegment, AddsSegments, AddsNote, end_of};

use crate::layout::{Layout, PAGE};
use crate::programs::ProgramHeader;
use cet_base::{Bytes, Line, NoMemory};
use cet_elf::ExecSegment;
use cet_elf::layout::Fields;

// PT_LOAD.
fn load(segment: &ExecSegment, place: u64) -> ProgramHeader
    ensures { result ≡ load_of segment.now place }
{
    ProgramHeader {
        kind: 1,
        flags: segment.flags,
        offset: place,
        start: segment.start,
        stored_size: segment.bytes.len() as u64,
        size: segment.size,
    }
}

// The segments behind the first, where that has these flags.
fn without(segments: &[ExecSegment], flags: u32) -> &[ExecSegment]
    ensures { (others : List ℕ) → is_left_of (map (λ s. s.flags) segments.now) (flags ∷ others) ≡ is_left_of (map (λ s. s.flags) result.now) others }
{
    match segments.first() {
        Some(segment) if segment.flags == flags => &segments[1..],
        _ => segments,
    }
}

// The segments are those that a link editor makes: code, what is read, and what is written, each at most once.
pub fn is_linked(segments: &[ExecSegment]) -> bool
    ensures { result ≡ is_linked_in segments.now }
{
    without(without(without(segments, 5), 4), 6).is_empty()
}

// The name of a segment's section.
fn segment_name(linked: bool, number: u32, flags: u32) -> Line
    ensures { result ≡ segment_name_of linked number flags }
{
    let mut name = Line::new();
    match (linked, flags) {
        (true, 5) => name.put(b".text"),
        (true, 4) => name.put(b".rodata"),
        (true, _) => name.put(b".data"),
        (false, _) => {
            name.put(b".seg");
            name.put_number(number);
        }
    }
    name
}

// SHF_ALLOC, SHF_WRITE and SHF_EXECINSTR, by the flags of a segment.
fn section_flags(flags: u32) -> u64
    ensures { result ≡ section_flags_of flags }
{
    let write = if flags & 2 != 0 { 1 } else { 0 };
    let execute = if flags & 1 != 0 { 4 } else { 0 };
    2 + write + execute
}

// The section header of a segment's section.
fn segment_fields(segment: &ExecSegment, name: &[u8]) -> Fields
    ensures { part_with name.now segment.now.bytes result ≡ segment_part name.now segment.now }
{
    Fields {
        kind: 1,
        flags: section_flags(segment.flags),
        address: segment.start,
        size: segment.bytes.len() as u64,
        link: 0,
        info: 0,
        align: 0,
        entry_size: 0,
    }
}

// A segment.
fn add_segment(
    layout: &mut Layout,
    linked: bool,
    number: u32,
    segment: &ExecSegment,
) -> Result<(), NoMemory>
    ensures adds { OnOk result (AddsSegment linked number layout.old layout.new segment.now) }
    ensures fits { OnOk result (SegmentFits segment.now) }
{
    let place = layout.put(PAGE, segment.bytes.as_slice())?;
    layout.add_program(load(segment, place))?;
    let name = segment_name(linked, number, segment.flags);
    let fields = segment_fields(segment, name.as_bytes());
    layout.add(name.as_bytes(), place, fields)?;
    Ok(())
}

// The segments, each at a multiple of 4,096.
pub fn add_segments(layout: &mut Layout, segments: &[ExecSegment]) -> Result<(), NoMemory>
    requires { length segments.now ≤ 16 }
    ensures adds { OnOk result (AddsSegments (is_linked_in segments.now) layout.old layout.new segments.now) }
    ensures fit { OnOk result (All SegmentFits segments.now) }
{
    let linked = is_linked(segments);
    for (number, segment) in segments.iter().enumerate() {
        add_segment(layout, linked, number as u32, segment)?;
    }
    Ok(())
}

// The note stands first in a segment that is read alone.
fn begins_with(segment: &ExecSegment, note: &[u8]) -> bool
    ensures { result ≡ begins_with_in note.now segment.now }
{
    segment.flags == 4 && segment.bytes.as_slice().starts_with(note)
}

// The number of the first such segment.
fn first_beginning_with(segments: &[ExecSegment], note: &[u8]) -> Option<usize>
    ensures { result ≡ position (begins_with_in note.now) segments.now }
{
    segments.iter().position(|s| begins_with(s, note))
}

// Its program header.
fn home(segments: &[ExecSegment], programs: &[ProgramHeader], note: &[u8]) -> Option<ProgramHeader>
    requires { length programs.now ≡ length segments.now }
    ensures { result ≡ home_of note.now segments.now programs.now }
{
    match first_beginning_with(segments, note) {
        Some(index) => Some(programs[index]),
        None => None,
    }
}

// PT_GNU_PROPERTY.
fn property(note: &[u8], place: u64, address: u64) -> ProgramHeader
    ensures { result ≡ property_of note.now place address }
{
    ProgramHeader {
        kind: 0x6474_e553,
        flags: 4,
        offset: place,
        start: address,
        stored_size: note.len() as u64,
        size: note.len() as u64,
    }
}

// The bytes of the note, where it stands in no segment, and its program header.
fn put_note(
    layout: &mut Layout,
    note: &[u8],
    home: Option<ProgramHeader>,
) -> Result<ProgramHeader, NoMemory>
    ensures program { IfOk result (λ program. program ≡ note_program note.now (end_of layout.old) home) }
    ensures adds { OnOk result (Adds layout.old layout.new (spaced 8 (end_of layout.old) (own_bytes note.now home)) [] []) }
{
    match home {
        Some(segment) => Ok(property(note, segment.offset, segment.start)),
        None => {
            let place = layout.put(8, note)?;
            Ok(property(note, place, 0))
        }
    }
}

// The section header of the note.
fn note_fields(note: &[u8], address: u64) -> Fields
    ensures { part_with (codes ".note.gnu.property") note.now result ≡ note_part note.now address }
{
    Fields {
        kind: 7,
        flags: 2,
        address,
        size: note.len() as u64,
        link: 0,
        info: 0,
        align: 8,
        entry_size: 0,
    }
}

// The program header and the section of a note that is there.
fn add_note(layout: &mut Layout, note: &[u8], home: Option<ProgramHeader>) -> Result<(), NoMemory>
    ensures { OnOk result (let program = note_program note.now (end_of layout.old) home in Adds layout.old layout.new (spaced 8 (end_of layout.old) (own_bytes note.now home)) (program ∷ []) (note_section note.now program ∷ [])) }
{
    let program = put_note(layout, note, home)?;
    layout.add_program(program)?;
    let fields = note_fields(note, program.start);
    layout.add(b".note.gnu.property", program.offset, fields)?;
    Ok(())
}

// The note, where there is one. The program headers are those of the segments.
pub fn add_notes(
    layout: &mut Layout,
    segments: &[ExecSegment],
    notes: &Option<Bytes>,
) -> Result<(), NoMemory>
    requires { length layout.old.programs.items ≡ length segments.now }
    ensures { OnOk result (AddsNote segments.now layout.old layout.new notes.now) }
{
    if let Some(note) = notes {
        let home = home(segments, &layout.programs, note.as_slice());
        add_note(layout, note.as_slice(), home)?;
    }
    Ok(())
}
