//! Where the sections of a link stand in memory.

ghost use Rattle.std.specs.Prelude.{◌≡◌, ◌+◌, ◌<◌, ◌≤◌, ◌^◌, ℕ, true, false, OnOk, IfOk, MatchOption, All, List, length, slice_index, if◌then◌else◌};
ghost use Rattle.cet_elf.specs.Consistent.{IsAlignment, IsConsistent};
ghost use Rattle.cet_elf.specs.declared.object.Class.{Class as ClassOf};
ghost use Rattle.cet_elf.specs.declared.object.Class.TheVariants as classes;
ghost use Rattle.cet_link.specs.Places.{is_class as is_class_of, start_behind, end_behind, all_sections};
ghost use Rattle.cet_link.specs.Faults.{classes_fit};
ghost use Rattle.cet_link.specs.Laid.{IsFrame, IsPlaceable, NoGroups, end_after, end_in, place_among, cell, ArePlaces};

use cet_base::NoMemory;
use cet_elf::{Class, Object, Section};
use std::alloc::Global;

/// Where the sections that are executed start.
pub(crate) const CODE_START: u64 = 0x40_1000;

// The size of a page in bytes.
const PAGE: u64 = 4096;

// The most bytes of a class.
const CLASS_LIMIT: u64 = 16_777_216;

/// The addresses where the classes start and end.
#[derive(Clone, Copy)]
pub(crate) struct Frame {
    pub(crate) code_end: u64,
    pub(crate) read_start: u64,
    /// Where the merged note ends, which stands first in the class.
    pub(crate) note_end: u64,
    pub(crate) read_end: u64,
    pub(crate) write_start: u64,
    /// Where the stored sections of the class end, and its zeros start.
    pub(crate) stored_end: u64,
    pub(crate) write_end: u64,
}

/// Where each class ends so far.
#[derive(Clone, Copy)]
pub(crate) struct Ends {
    pub(crate) code: u64,
    pub(crate) read: u64,
    pub(crate) write: u64,
    pub(crate) zero: u64,
}

/// Both are the same class.
pub(crate) fn is_class(class: Class, other: Class) -> bool
    ensures { result ≡ is_class_of class other }
{
    match class {
        Class::Code => matches!(other, Class::Code),
        Class::Read => matches!(other, Class::Read),
        Class::Write => matches!(other, Class::Write),
        Class::Zero => matches!(other, Class::Zero),
        Class::Group => matches!(other, Class::Group),
    }
}

/// The least multiple of the section's alignment that is not below this end of what stands before it.
pub(crate) fn start_of(end: u64, section: &Section) -> u64
    requires align { IsAlignment section.now.align }
    requires end { end < 2 ^ 48 }
    ensures start { result ≡ start_behind end section.now }
    ensures low { end ≤ result }
    ensures high { result < end + 4096 }
{
    end.next_multiple_of(section.align)
}

// Where the class ends behind a section more, unless that is past the limit.
fn end_with(class: Class, end: u64, limit: u64, section: &Section) -> Option<u64>
    requires align { IsAlignment section.now.align }
    requires end { end ≤ limit }
    requires limit { limit < 2 ^ 32 }
    ensures { MatchOption result (limit < end_after class end section.now) (λ e. (e ≡ end_after class end section.now) × (e ≤ limit)) }
{
    if !is_class(class, section.class) {
        return Some(end);
    }
    let start = start_of(end, section);
    if start > limit || section.size > limit - start {
        return None;
    }
    Some(start + section.size)
}

// Where the class ends behind these sections, unless that is past the limit.
fn end_with_all(class: Class, end: u64, limit: u64, sections: &[Section]) -> Option<u64>
    requires aligned { All (λ s. IsAlignment s.align) sections.now }
    requires end { end ≤ limit }
    requires limit { limit < 2 ^ 32 }
    ensures { MatchOption result (limit < end_behind class end sections.now) (λ e. (e ≡ end_behind class end sections.now) × (e ≤ limit)) }
{
    let mut at = end;
    for section in sections {
        at = end_with(class, at, limit, section)?;
    }
    Some(at)
}

// Where the class ends behind the sections of these inputs, unless that is past the limit.
fn class_end(class: Class, end: u64, limit: u64, inputs: &[Object]) -> Option<u64>
    requires consistent { All IsConsistent inputs.now }
    requires end { end ≤ limit }
    requires limit { limit < 2 ^ 32 }
    ensures { MatchOption result (limit < end_behind class end (all_sections inputs.now)) (λ e. (e ≡ end_behind class end (all_sections inputs.now)) × (e ≤ limit)) }
{
    let mut at = end;
    for input in inputs {
        at = end_with_all(class, at, limit, input.sections.as_slice())?;
    }
    Some(at)
}

/// Where the classes start and end; `note` is the merged note. None exactly where a class passes 16,777,216 bytes.
pub(crate) fn measure(inputs: &[Object], note: &[u8]) -> Option<Frame>
    requires { All IsConsistent inputs.now }
    ensures { MatchOption result (classes_fit inputs.now note.now ≡ false) (λ frame. (classes_fit inputs.now note.now ≡ true) × IsFrame inputs.now note.now frame) }
{
    let code_end = class_end(Class::Code, CODE_START, CODE_START + CLASS_LIMIT, inputs)?;
    let read_start = code_end.next_multiple_of(PAGE);
    if note.len() as u64 > CLASS_LIMIT {
        return None;
    }
    let note_end = read_start + note.len() as u64;
    let read_end = class_end(Class::Read, note_end, read_start + CLASS_LIMIT, inputs)?;
    let write_start = read_end.next_multiple_of(PAGE);
    let limit = write_start + CLASS_LIMIT;
    let stored_end = class_end(Class::Write, write_start, limit, inputs)?;
    let write_end = class_end(Class::Zero, stored_end, limit, inputs)?;
    Some(Frame {
        code_end,
        read_start,
        note_end,
        read_end,
        write_start,
        stored_end,
        write_end,
    })
}

impl Ends {
    // Behind what the sections of each class stand.
    fn new(frame: &Frame) -> Ends
        ensures { result ≡ record { code = CODE_START; read = frame.now.note_end; write = frame.now.write_start; zero = frame.now.stored_end } }
    {
        Ends {
            code: CODE_START,
            read: frame.note_end,
            write: frame.write_start,
            zero: frame.stored_end,
        }
    }

    // Where the class ends.
    fn end(&self, class: Class) -> u64
        ensures { result ≡ end_in self.now class }
    {
        match class {
            Class::Code => self.code,
            Class::Read => self.read,
            Class::Write => self.write,
            Class::Zero => self.zero,
            Class::Group => 0,
        }
    }

    // Makes this the end of the class, which is not that of groups.
    fn set(&mut self, class: Class, end: u64)
        requires { is_class_of classes.Group class ≡ false }
        ensures { (other : ClassOf) → end_in self.new other ≡ (if is_class_of other class then end else end_in self.old other) }
    {
        match class {
            Class::Code => self.code = end,
            Class::Read => self.read = end,
            Class::Write => self.write = end,
            Class::Zero => self.zero = end,
            Class::Group => {}
        }
    }

    // Puts a section behind what stands in its class, and answers its place.
    fn place(&mut self, section: &Section) -> u64
        requires placeable { IsPlaceable section.now }
        requires room { start_behind (end_in self.old section.now.class) section.now + section.now.size < 2 ^ 48 }
        ensures place { result ≡ start_behind (end_in self.old section.now.class) section.now }
        ensures ends { (class : ClassOf) → end_in self.new class ≡ end_after class (end_in self.old class) section.now }
    {
        let start = start_of(self.end(section.class), section);
        self.set(section.class, start + section.size);
        start
    }
}

// The places of these sections behind what stands in their classes.
fn place_all(alloc: Global, ends: &mut Ends, sections: &[Section]) -> Result<Vec<u64>, NoMemory>
    requires placeable { All IsPlaceable sections.now }
    requires room { (class : ClassOf) → is_class_of classes.Group class ≡ false → end_behind class (end_in ends.old class) sections.now < 2 ^ 48 }
    ensures places { IfOk result (λ row. (number : ℕ) → slice_index row.items number ≡ place_among (end_in ends.old) sections.now number) }
    ensures ends { OnOk result ((class : ClassOf) → end_in ends.new class ≡ end_behind class (end_in ends.old class) sections.now) }
{
    let mut row = Vec::new(alloc);
    for section in sections {
        row.push(ends.place(section))?;
    }
    Ok(row)
}

/// The places of the sections of each input.
pub(crate) fn places(
    alloc: Global,
    inputs: &[Object],
    frame: &Frame,
) -> Result<Vec<Vec<u64>>, NoMemory>
    requires consistent { All IsConsistent inputs.now }
    requires groups { NoGroups inputs.now }
    requires frame { (note : List ℕ) × (classes_fit inputs.now note ≡ true) × IsFrame inputs.now note frame.now }
    ensures { IfOk result (λ rows. (note : List ℕ) → IsFrame inputs.now note frame.now → ArePlaces inputs.now note rows.items) }
{
    let mut ends = Ends::new(frame);
    let mut rows = Vec::new(alloc);
    for input in inputs {
        rows.push(place_all(alloc, &mut ends, input.sections.as_slice())?)?;
    }
    Ok(rows)
}
