//! The notes of the inputs, and the note that they merge to.

ghost use Rattle.std.specs.Prelude.{◌≡◌, ◌<◌, ◌^◌, IfOk, OnOk, length, [], ◌∷◌, ◌++◌};
ghost use Rattle.cet_note.specs.Fault.{Gives};
ghost use Rattle.cet_note.specs.Form.{written};
ghost use Rattle.cet_note.specs.Merged.{IsMerged};
ghost use Rattle.cet_note.specs.Note.{Note};
ghost use Rattle.cet_link.specs.First.{Finds, Reads};
ghost use Rattle.cet_link.specs.Notes.{reading, note_read, note_fault as note_fault_of, notes as notes_of, note_faults, IsMergedNote};

use crate::error::LinkError;
use cet_base::NoMemory;
use cet_elf::Object;
use cet_note::{NoteError, Props, merge, read_note, write_note};
use std::alloc::Global;

// The note of an input. One that is absent has no property.
fn note(alloc: Global, input: &Object) -> Result<Props, NoteError>
    ensures { Gives (λ props. props) result (reading input.now) }
{
    match &input.notes {
        Some(bytes) => read_note(alloc, bytes.as_slice()),
        None => Ok(Props::new(alloc)),
    }
}

// The note of the input of this number.
fn numbered_note(alloc: Global, number: u32, input: &Object) -> Result<Props, LinkError>
    ensures { Reads (λ props. props ∷ []) result (note_fault_of number (reading input.now)) (note_read (reading input.now)) }
{
    match note(alloc, input) {
        Ok(note) => Ok(note),
        Err(NoteError::NoMemory) => Err(LinkError::NoMemory),
        Err(error) => Err(LinkError::Note {
            input: number,
            error,
        }),
    }
}

// Adds the note of one input more.
fn add(notes: &mut Vec<Props>, note: Props) -> Result<(), NoMemory>
    ensures { OnOk result (notes.new.items ≡ notes.old.items ++ note ∷ []) }
{
    notes.push(note)?;
    Ok(())
}

// The notes of all inputs.
fn read_notes(alloc: Global, inputs: &[Object]) -> Result<Vec<Props>, LinkError>
    requires { length inputs.now < 2 ^ 32 }
    ensures { Reads (λ notes. notes.items) result (note_faults inputs.now) (notes_of inputs.now) }
{
    let mut notes = Vec::new(alloc);
    for (number, input) in inputs.iter().enumerate() {
        let note = numbered_note(alloc, number as u32, input)?;
        add(&mut notes, note)?;
    }
    Ok(notes)
}

// The bytes of what notes merge to.
fn merged(alloc: Global, notes: &[Props]) -> Result<Vec<u8>, NoMemory>
    ensures { IfOk result (λ bytes. (note : Note) × IsMerged notes.now note × (bytes.items ≡ written note)) }
{
    let note = merge(alloc, notes)?;
    write_note(alloc, &note)
}

/// The bytes of the merged note: none where it has no property.
pub(crate) fn merged_note(alloc: Global, inputs: &[Object]) -> Result<Vec<u8>, LinkError>
    requires { length inputs.now < 2 ^ 32 }
    ensures note { IfOk result (λ bytes. IsMergedNote inputs.now bytes.items) }
    ensures fault { Finds result (note_faults inputs.now) }
{
    let notes = read_notes(alloc, inputs)?;
    let bytes = merged(alloc, &notes)?;
    Ok(bytes)
}
