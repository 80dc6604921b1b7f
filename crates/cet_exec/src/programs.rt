//! Program headers: the segments of an executable and its note.

ghost use Rattle.std.specs.Prelude.{◌≡◌, ◌+◌, ◌≤◌, ◌<◌, ◌++◌, [], true, length, is_some, IfOk};
ghost use Rattle.cet_elf.specs.Below.{each_below, first_below};
ghost use Rattle.cet_elf.specs.Faults.{Finds};
ghost use Rattle.cet_elf.specs.Header.{program_count as count_of};
ghost use Rattle.cet_exec.specs.Programs.{program_header as header_at, program_place as place_of, program as program_of, is_load as is_load_in, is_property as is_property_in, is_dynamic as is_dynamic_in, is_segment as is_segment_in, is_stored as is_stored_in, is_note as is_note_at, load_faults, property_faults, program_faults, programs_faults, stored as stored_of, segment_of as segment_in, segments_of, notes_of, HasProgramTable};

use cet_base::{Bytes, NoMemory};
use cet_elf::fields::{half, is_part, part, word, xword};
use cet_elf::header::demand;
use cet_elf::room::Room;
use cet_elf::{ElfError, ExecSegment, ExecSegmentList};

/// A program header (gABI, "Program Header", Elf64_Phdr), without p_paddr and p_align.
#[derive(Clone, Copy, Debug, PartialEq, Eq)]
pub struct ProgramHeader {
    /// p_type.
    pub kind: u32,
    pub flags: u32,
    /// The place of the stored bytes in the file.
    pub offset: u64,
    /// p_vaddr.
    pub start: u64,
    /// p_filesz: how many bytes are stored.
    pub stored_size: u64,
    /// p_memsz, in bytes.
    pub size: u64,
}

// The program header at `at`.
#[tactic(auto, unfolding(crate::specs::Programs::program_header))]
fn program_header(bytes: &[u8], at: u64) -> ProgramHeader
    requires { at + 56 ≤ length bytes.now }
    ensures { result ≡ header_at bytes.now at }
{
    ProgramHeader {
        kind: word(bytes, at),
        flags: word(bytes, at + 4),
        offset: xword(bytes, at + 8),
        start: xword(bytes, at + 16),
        stored_size: xword(bytes, at + 32),
        size: xword(bytes, at + 40),
    }
}

// The number of program headers.
fn program_count(bytes: &[u8]) -> u32
    requires { 64 ≤ length bytes.now }
    ensures { result ≡ count_of bytes.now }
{
    u32::from(half(bytes, 56))
}

// Where a program header stands.
fn program_place(bytes: &[u8], index: u32) -> u64
    requires table { HasProgramTable bytes.now }
    requires there { index < count_of bytes.now }
    ensures place { result ≡ place_of bytes.now index }
    ensures inside { result + 56 ≤ length bytes.now }
{
    xword(bytes, 32) + 56 * u64::from(index)
}

fn program(bytes: &[u8], index: u32) -> ProgramHeader
    requires table { HasProgramTable bytes.now }
    requires there { index < count_of bytes.now }
    ensures { result ≡ program_of bytes.now index }
{
    program_header(bytes, program_place(bytes, index))
}

// PT_LOAD.
pub fn is_load(p: ProgramHeader) -> bool
    ensures { result ≡ is_load_in p }
{
    p.kind == 1
}

// PT_GNU_PROPERTY.
fn is_property(p: ProgramHeader) -> bool
    ensures { result ≡ is_property_in p }
{
    p.kind == 0x6474_e553
}

// PT_DYNAMIC, PT_INTERP or PT_TLS.
fn is_dynamic(p: ProgramHeader) -> bool
    ensures { result ≡ is_dynamic_in p }
{
    p.kind == 2 || p.kind == 3 || p.kind == 7
}

// The stored bytes are in the file.
fn is_stored(bytes: &[u8], p: ProgramHeader) -> bool
    ensures { result ≡ is_stored_in bytes.now p }
{
    is_part(bytes, p.offset, p.stored_size)
}

// The sizes and the stored bytes of a PT_LOAD at `at`.
#[tactic(auto, using(cet_elf::proofs::FaultLemmas::checks))]
fn check_load(bytes: &[u8], at: u64, p: ProgramHeader) -> Result<(), ElfError>
    requires { at + 56 ≤ length bytes.now }
    ensures { Finds result (load_faults bytes.now at p) }
{
    demand(p.stored_size <= p.size, ElfError::Bounds { at: at + 32 })?;
    demand(is_stored(bytes, p), ElfError::Bounds { at: at + 8 })
}

// The stored bytes of a PT_GNU_PROPERTY at `at`, and that it is the first one.
#[tactic(auto, using(cet_elf::proofs::FaultLemmas::checks))]
fn check_property(bytes: &[u8], at: u64, is_second: bool, p: ProgramHeader) -> Result<(), ElfError>
    requires { at + 56 ≤ length bytes.now }
    ensures { Finds result (property_faults bytes.now at is_second p) }
{
    demand(is_stored(bytes, p), ElfError::Bounds { at: at + 8 })?;
    demand(!is_second, ElfError::Unsupported { at })
}

// A program header, where `note` is the first PT_GNU_PROPERTY before it.
#[tactic(auto, using(cet_elf::proofs::FaultLemmas::checks), unfolding(crate::specs::Programs::program_faults))]
fn check_program(bytes: &[u8], index: u32, note: Option<u32>) -> Result<(), ElfError>
    requires table { HasProgramTable bytes.now }
    requires there { index < count_of bytes.now }
    requires note { note ≡ first_below index (is_note_at bytes.now) }
    ensures { Finds result (program_faults bytes.now index) }
{
    let p = program(bytes, index);
    let at = program_place(bytes, index);
    if is_load(p) {
        check_load(bytes, at, p)
    } else if is_property(p) {
        check_property(bytes, at, note.is_some(), p)
    } else {
        demand(!is_dynamic(p), ElfError::Unsupported { at })
    }
}

// The first PT_GNU_PROPERTY, where `note` is the first one before this program header.
fn with_program(bytes: &[u8], index: u32, note: Option<u32>) -> Option<u32>
    requires table { HasProgramTable bytes.now }
    requires there { index < count_of bytes.now }
    requires note { note ≡ first_below index (is_note_at bytes.now) }
    ensures { result ≡ first_below (index + 1) (is_note_at bytes.now) }
{
    if is_property(program(bytes, index)) {
        note.or(Some(index))
    } else {
        note
    }
}

// All program headers. The answer is the PT_GNU_PROPERTY.
#[tactic(auto, using(cet_elf::proofs::FaultLemmas::checks, cet_elf::proofs::BelowLemmas::loops), unfolding(crate::specs::Programs::programs_faults))]
pub fn check_programs(bytes: &[u8]) -> Result<Option<u32>, ElfError>
    requires { HasProgramTable bytes.now }
    ensures finds { Finds result (programs_faults bytes.now) }
    ensures note { IfOk result (λ note. note ≡ first_below (count_of bytes.now) (is_note_at bytes.now)) }
{
    let mut note = None;
    for i in 0..program_count(bytes) {
        check_program(bytes, i, note)?;
        note = with_program(bytes, i, note);
    }
    Ok(note)
}

// A copy of the stored bytes.
fn stored(room: &mut Room, bytes: &[u8], p: ProgramHeader) -> Result<Bytes, NoMemory>
    requires { is_stored_in bytes.now p ≡ true }
    ensures { IfOk result (λ copy. copy ≡ stored_of bytes.now p) }
{
    room.copy(part(bytes, p.offset, p.stored_size))
}

// A PT_LOAD that has memory.
fn is_segment(p: ProgramHeader) -> bool
    ensures { result ≡ is_segment_in p }
{
    is_load(p) && p.size > 0
}

// A PT_LOAD as a value.
#[tactic(auto, unfolding(crate::specs::Programs::segment_of))]
fn segment_of(room: &mut Room, bytes: &[u8], p: ProgramHeader) -> Result<ExecSegment, NoMemory>
    requires { is_stored_in bytes.now p ≡ true }
    ensures { IfOk result (λ s. s ≡ segment_in bytes.now p) }
{
    Ok(ExecSegment {
        start: p.start,
        size: p.size,
        flags: p.flags,
        bytes: stored(room, bytes, p)?,
    })
}

// The segments.
#[tactic(auto, using(crate::proofs::ProgramLemmas::programs), unfolding(crate::specs::Programs::segments_of))]
pub fn read_segments(room: &mut Room, bytes: &[u8]) -> Result<ExecSegmentList, NoMemory>
    requires table { HasProgramTable bytes.now }
    requires programs { programs_faults bytes.now ≡ [] }
    ensures { IfOk result (λ segments. segments ≡ segments_of bytes.now) }
{
    let mut segments = ExecSegmentList::new(room.alloc());
    for i in 0..program_count(bytes) {
        let p = program(bytes, i);
        if is_segment(p) {
            segments.push(segment_of(room, bytes, p)?)?;
        }
    }
    Ok(segments)
}

// The bytes of the note, which is the PT_GNU_PROPERTY `note`, where there is one.
#[tactic(auto, using(crate::proofs::ProgramLemmas::programs), unfolding(crate::specs::Programs::notes_of))]
pub fn read_note(
    room: &mut Room,
    bytes: &[u8],
    note: Option<u32>,
) -> Result<Option<Bytes>, NoMemory>
    requires table { HasProgramTable bytes.now }
    requires programs { programs_faults bytes.now ≡ [] }
    requires note { note ≡ first_below (count_of bytes.now) (is_note_at bytes.now) }
    ensures { IfOk result (λ found. found ≡ notes_of bytes.now) }
{
    let Some(index) = note else {
        return Ok(None);
    };
    Ok(Some(stored(room, bytes, program(bytes, index))?))
}
