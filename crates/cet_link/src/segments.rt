//! The segments of the executable (gABI, "Program Header").

ghost use Rattle.std.specs.Prelude.{◌≡◌, ◌+◌, ◌-◌, ◌<◌, ◌≤◌, ◌^◌, ℕ, true, false, List, [], ◌∷◌, ◌++◌, All, IfOk, OnOk, length, replicate, vec_len};
ghost use Rattle.cet_elf.specs.Consistent.{IsConsistent, IsConsistentSection};
ghost use Rattle.cet_elf.specs.declared.object.Class.TheVariants as classes;
ghost use Rattle.cet_elf.specs.declared.object.Object.{Object as ObjectOf};
ghost use Rattle.cet_link.specs.Inputs.{parts};
ghost use Rattle.cet_link.specs.Faults.{classes_fit};
ghost use Rattle.cet_link.specs.Laid.{AreTables, Gains, IsFrame, parts_in};
ghost use Rattle.cet_link.specs.Linked.{bytes_behind, segment, code_segment, read_segment, write_segment};
ghost use Rattle.cet_link.specs.Places.{is_class as is_class_of};

use crate::layout::{CODE_START, Frame, is_class, start_of};
use crate::patch::put_patched;
use crate::values::Tables;
use cet_base::{Bytes, Items, NoMemory};
use cet_elf::put::{SIZE_LIMIT, put};
use cet_elf::{Class, ExecSegment, ExecSegmentList, Object, Section};
use std::alloc::Global;

// How many zeros stand before a section at most.
const MOST_ZEROS: usize = 4096;

// Zeros.
fn put_zeros(out: &mut Vec<u8>, count: usize) -> Result<(), NoMemory>
    requires { count ≤ MOST_ZEROS }
    ensures bytes { OnOk result (out.new.items ≡ out.old.items ++ replicate count 0) }
    ensures limit { OnOk result (vec_len out.new ≤ SIZE_LIMIT) }
{
    let zeros = [0; MOST_ZEROS];
    put(out, &zeros[..count])?;
    Ok(())
}

// Adds the section of this number to the bytes of its class, which starts at `start`.
fn put_section(
    out: &mut Vec<u8>,
    start: u64,
    tables: &Tables,
    input: u32,
    number: u32,
    section: &Section,
) -> Result<(), NoMemory>
    requires consistent { (symbols : ℕ) × IsConsistentSection symbols section.now }
    requires stored { is_class_of classes.Zero section.now.class ≡ false }
    requires start { start < 2 ^ 40 }
    requires limit { vec_len out.old ≤ SIZE_LIMIT }
    ensures bytes { OnOk result ((inputs : List ObjectOf) → (note : List ℕ) → AreTables inputs note tables.now → Gains inputs note section.now.class start out.old.items out.new.items (record { input = input; number = number; section = section.now } ∷ [])) }
    ensures limit { OnOk result (vec_len out.new ≤ SIZE_LIMIT) }
{
    let end = start + out.len() as u64;
    let zeros = start_of(end, section) - end;
    put_zeros(out, zeros as usize)?;
    put_patched(out, tables, input, number, section)?;
    Ok(())
}

// Adds the section of this number if it is of this class.
fn put_if_class(
    out: &mut Vec<u8>,
    class: Class,
    start: u64,
    tables: &Tables,
    input: u32,
    number: u32,
    section: &Section,
) -> Result<(), NoMemory>
    requires consistent { (symbols : ℕ) × IsConsistentSection symbols section.now }
    requires stored { is_class_of classes.Zero class ≡ false }
    requires start { start < 2 ^ 40 }
    requires limit { vec_len out.old ≤ SIZE_LIMIT }
    ensures bytes { OnOk result ((inputs : List ObjectOf) → (note : List ℕ) → AreTables inputs note tables.now → Gains inputs note class start out.old.items out.new.items (record { input = input; number = number; section = section.now } ∷ [])) }
    ensures limit { OnOk result (vec_len out.new ≤ SIZE_LIMIT) }
{
    if !is_class(class, section.class) {
        return Ok(());
    }
    put_section(out, start, tables, input, number, section)?;
    Ok(())
}

// Adds the sections of an input that are of this class.
fn put_sections(
    out: &mut Vec<u8>,
    class: Class,
    start: u64,
    tables: &Tables,
    input: u32,
    sections: &[Section],
) -> Result<(), NoMemory>
    requires consistent { (symbols : ℕ) × All (IsConsistentSection symbols) sections.now }
    requires few { length sections.now ≤ 4096 }
    requires stored { is_class_of classes.Zero class ≡ false }
    requires start { start < 2 ^ 40 }
    requires limit { vec_len out.old ≤ SIZE_LIMIT }
    ensures bytes { OnOk result ((inputs : List ObjectOf) → (note : List ℕ) → AreTables inputs note tables.now → Gains inputs note class start out.old.items out.new.items (parts_in input sections.now)) }
    ensures limit { OnOk result (vec_len out.new ≤ SIZE_LIMIT) }
{
    for (number, section) in sections.iter().enumerate() {
        put_if_class(out, class, start, tables, input, number as u32, section)?;
    }
    Ok(())
}

// The bytes of a class, which starts at `start`: first `front`, and then its sections.
fn class_bytes(
    alloc: Global,
    class: Class,
    start: u64,
    front: &[u8],
    tables: &Tables,
    inputs: &[Object],
) -> Result<Vec<u8>, NoMemory>
    requires consistent { All IsConsistent inputs.now }
    requires few { length inputs.now < 2 ^ 32 }
    requires stored { is_class_of classes.Zero class ≡ false }
    requires start { start < 2 ^ 40 }
    ensures { IfOk result (λ bytes. (note : List ℕ) → AreTables inputs.now note tables.now → bytes.items ≡ front.now ++ bytes_behind inputs.now note class (start + length front.now) (parts inputs.now)) }
{
    let mut out = Vec::new(alloc);
    put(&mut out, front)?;
    for (number, input) in inputs.iter().enumerate() {
        put_sections(
            &mut out,
            class,
            start,
            tables,
            number as u32,
            input.sections.as_slice(),
        )?;
    }
    Ok(out)
}

// Adds a segment, unless it would have no byte.
fn add(
    alloc: Global,
    segments: &mut ExecSegmentList,
    flags: u32,
    start: u64,
    end: u64,
    bytes: &[u8],
) -> Result<(), NoMemory>
    requires { start ≤ end }
    ensures { OnOk result (segments.new ≡ segments.old ++ segment flags start end bytes.now) }
{
    let size = end - start;
    if size == 0 {
        return Ok(());
    }
    segments.push(ExecSegment {
        start,
        size,
        flags,
        bytes: Bytes::from_slice(alloc, bytes)?,
    })
}

/// The segments of the executable: what is executed, what is read alone, with the merged note `note` first, and what is written.
pub(crate) fn segments(
    alloc: Global,
    inputs: &[Object],
    note: &[u8],
    frame: &Frame,
    tables: &Tables,
) -> Result<ExecSegmentList, NoMemory>
    requires consistent { All IsConsistent inputs.now }
    requires few { length inputs.now < 2 ^ 32 }
    requires fit { classes_fit inputs.now note.now ≡ true }
    requires frame { IsFrame inputs.now note.now frame.now }
    requires tables { AreTables inputs.now note.now tables.now }
    ensures { IfOk result (λ list. list ≡ code_segment inputs.now note.now ++ (read_segment inputs.now note.now ++ write_segment inputs.now note.now)) }
{
    let mut segments = Items::new(alloc);
    let code = class_bytes(alloc, Class::Code, CODE_START, &[], tables, inputs)?;
    add(alloc, &mut segments, 5, CODE_START, frame.code_end, &code)?;
    let read = class_bytes(alloc, Class::Read, frame.read_start, note, tables, inputs)?;
    add(
        alloc,
        &mut segments,
        4,
        frame.read_start,
        frame.read_end,
        &read,
    )?;
    let write = class_bytes(alloc, Class::Write, frame.write_start, &[], tables, inputs)?;
    add(
        alloc,
        &mut segments,
        6,
        frame.write_start,
        frame.write_end,
        &write,
    )?;
    Ok(segments)
}
