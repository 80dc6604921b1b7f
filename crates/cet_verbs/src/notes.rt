//! `notes FILE...`: the property notes of files, and their merge.

ghost use Rattle.std.specs.Prelude.{◌≡◌, ◌≢◌, ℕ, List, [], Option, unwrap_or, length, Vec, IfOk, IfErr};
ghost use Rattle.cet_base.specs.Files.{Contents, FileMeets};
ghost use Rattle.cet_base.specs.Sink.{Gains};
ghost use Rattle.cet_verbs.specs.Command.{Notes};
ghost use Rattle.cet_verbs.specs.Named.{names_of};
ghost use Rattle.cet_verbs.specs.Held.{HoldsBytes};
ghost use Rattle.cet_elf.specs.ObjectFile.{IsObjectFile};
ghost use Rattle.cet_exec.specs.ExecFile.{IsExecFile};
ghost use Rattle.cet_note.specs.Form.{IsForm};
ghost use Rattle.cet_verbs.specs.Notes.{BeginsElf, BeginsObject, BeginsExec, has_exec_type, HasNoteBytes, IsFileNote, AllBoth, items_of};
ghost use Rattle.cet_verbs.specs.declared.refusal.Unfit.TheVariants.{NoNote};
ghost use Rattle.cet_verbs.specs.Unfit.{IsUnfitFor};
ghost use Rattle.cet_verbs.specs.Steps.{Form};
ghost use Rattle.cet_verbs.specs.Answer.{IsReport};
ghost use Rattle.cet_verbs.specs.Refused.{HasCause, IsAtStep, IsOfFiles};

use crate::forms::{no_exec, no_object};
use crate::notes_text::notes_report;
use crate::reading::read_files;
use crate::refusal::{Refusal, Unfit};
use crate::status;
use cet_base::{Bytes, Files, Sink, write_all};
use cet_elf::fields::{half, is_part};
use cet_elf::{Exec, Object, read_object};
use cet_exec::read_exec;
use cet_note::{NoteError, Props, merge, read_note};
use std::alloc::Global;

/// Where e_type, of 2 bytes, stands in an ELF file (ELF gABI, "ELF Header").
const E_TYPE: u64 = 16;

/// The e_type of executables.
const ET_EXEC: u16 = 2;

// The refusal of the file `name` for the fault of the note that it has.
fn no_note(name: &str, fault: NoteError) -> Refusal<'_>
    ensures { (told : Option Contents) (before after : ℕ) (names : List (List ℕ))
        → FileMeets told name.now (λ held. fault ≢ NoteError.NoMemory → IsUnfitFor (Notes names) (NoNote fault) held)
        → IsAtStep told before after (Notes names) (Form name.now) result }
{
    match fault {
        NoteError::NoMemory => Refusal::NoMemory,
        _ => Refusal::Unfit(name, Unfit::NoNote(fault)),
    }
}

// The note that `part` is, which the file `name` has as its note.
fn read_part<'a>(alloc: Global, name: &'a str, part: &[u8]) -> Result<Props, Refusal<'a>>
    ensures note { IfOk result (IsForm part.now) }
    ensures refused { IfErr result (λ refusal. (told : Option Contents) (before after : ℕ) (names : List (List ℕ))
        → FileMeets told name.now (λ held. HasNoteBytes held part.now) → IsAtStep told before after (Notes names) (Form name.now) refusal) }
{
    match read_note(alloc, part) {
        Ok(note) => Ok(note),
        Err(fault) => Err(no_note(name, fault)),
    }
}

// The object that the file `name` of these bytes is.
fn object_in<'a>(alloc: Global, name: &'a str, bytes: &[u8]) -> Result<Object, Refusal<'a>>
    requires { BeginsObject bytes.now }
    ensures object { IfOk result (IsObjectFile bytes.now) }
    ensures refused { IfErr result (λ refusal. (told : Option Contents) (before after : ℕ) (names : List (List ℕ))
        → FileMeets told name.now (λ held. held ≡ bytes.now) → IsAtStep told before after (Notes names) (Form name.now) refusal) }
{
    match read_object(alloc, bytes) {
        Ok(object) => Ok(object),
        Err(fault) => Err(no_object(name, fault)),
    }
}

// The executable that the file `name` of these bytes is.
fn exec_in<'a>(alloc: Global, name: &'a str, bytes: &[u8]) -> Result<Exec, Refusal<'a>>
    requires { BeginsExec bytes.now }
    ensures exec { IfOk result (IsExecFile bytes.now) }
    ensures refused { IfErr result (λ refusal. (told : Option Contents) (before after : ℕ) (names : List (List ℕ))
        → FileMeets told name.now (λ held. held ≡ bytes.now) → IsAtStep told before after (Notes names) (Form name.now) refusal) }
{
    match read_exec(alloc, bytes) {
        Ok(exec) => Ok(exec),
        Err(fault) => Err(no_exec(name, fault)),
    }
}

// The note of an object or of an executable, which has these bytes as its note, or none.
fn read_notes<'a>(alloc: Global, name: &'a str, notes: &Option<Bytes>) -> Result<Props, Refusal<'a>>
    ensures note { IfOk result (IsForm (unwrap_or notes.now [])) }
    ensures refused { IfErr result (λ refusal. (told : Option Contents) (before after : ℕ) (names : List (List ℕ))
        → FileMeets told name.now (λ held. HasNoteBytes held (unwrap_or notes.now [])) → IsAtStep told before after (Notes names) (Form name.now) refusal) }
{
    match notes {
        Some(part) => read_part(alloc, name, part.as_slice()),
        None => read_part(alloc, name, &[]),
    }
}

// Whether the file is to be an executable.
fn has_exec_type(bytes: &[u8]) -> bool
    ensures { result ≡ has_exec_type bytes.now }
{
    is_part(bytes, E_TYPE, 2) && half(bytes, E_TYPE) == ET_EXEC
}

// The note of the file `name`, which begins as an ELF file does.
fn read_elf<'a>(alloc: Global, name: &'a str, bytes: &[u8]) -> Result<Props, Refusal<'a>>
    requires { BeginsElf bytes.now }
    ensures note { IfOk result (IsFileNote bytes.now) }
    ensures refused { IfErr result (λ refusal. (told : Option Contents) (before after : ℕ) (names : List (List ℕ))
        → FileMeets told name.now (λ held. held ≡ bytes.now) → IsAtStep told before after (Notes names) (Form name.now) refusal) }
{
    if has_exec_type(bytes) {
        let exec = exec_in(alloc, name, bytes)?;
        return read_notes(alloc, name, &exec.notes);
    }
    let object = object_in(alloc, name, bytes)?;
    read_notes(alloc, name, &object.notes)
}

// The note of the file `name`, from the bytes that it holds.
fn read_form<'a>(alloc: Global, name: &'a str, bytes: &[u8]) -> Result<Props, Refusal<'a>>
    ensures note { IfOk result (IsFileNote bytes.now) }
    ensures refused { IfErr result (λ refusal. (told : Option Contents) (before after : ℕ) (names : List (List ℕ))
        → FileMeets told name.now (λ held. held ≡ bytes.now) → IsAtStep told before after (Notes names) (Form name.now) refusal) }
{
    if bytes.starts_with(b"\x7fELF") {
        read_elf(alloc, name, bytes)
    } else {
        read_part(alloc, name, bytes)
    }
}

// The note of each file, from the bytes that it holds.
fn read_forms<'a>(
    alloc: Global,
    names: &[&'a str],
    held: &[Vec<u8>],
) -> Result<Vec<Props>, Refusal<'a>>
    requires { length names.now ≡ length held.now }
    ensures notes { IfOk result (λ notes. AllBoth IsFileNote (items_of held.now) notes.items) }
    ensures refused { IfErr result (λ refusal. (told : Option Contents) (before after : ℕ)
        → AllBoth (HoldsBytes told) (names_of names.now) (items_of held.now) → IsOfFiles told before after (Notes (names_of names.now)) refusal) }
{
    let mut notes = Vec::new(alloc);
    for (i, name) in names.iter().enumerate() {
        let note = read_form(alloc, *name, &held[i])?;
        if notes.push(note).is_err() {
            return Err(Refusal::NoMemory);
        }
    }
    Ok(notes)
}

// The whole report.
fn report<'a, F: Files>(
    alloc: Global,
    names: &[&'a str],
    files: &mut F,
) -> Result<Vec<u8>, Refusal<'a>>
    ensures contents { F.contents files.new ≡ F.contents files.old }
    ensures reported { IfOk result (λ text. IsReport (F.contents files.old) [] (Notes (names_of names.now)) 0 text.items) }
    ensures refused { IfErr result (IsOfFiles (F.contents files.old) (F.faults files.old) (F.faults files.new) (Notes (names_of names.now))) }
{
    let held = read_files(alloc, names, files)?;
    let notes = read_forms(alloc, names, &held)?;
    let Ok(merged) = merge(alloc, &notes) else {
        return Err(Refusal::NoMemory);
    };
    let Ok(text) = notes_report(alloc, names, &notes, &merged) else {
        return Err(Refusal::NoMemory);
    };
    Ok(text)
}

/// Reads the files, and writes the note of each and their merge to the output.
pub fn notes<'a, F: Files, O: Sink>(
    alloc: Global,
    names: &[&'a str],
    files: &mut F,
    out: &mut O,
) -> Result<u8, Refusal<'a>>
    ensures contents { F.contents files.new ≡ F.contents files.old }
    ensures reported { IfOk result (λ status. (text : List ℕ) × Gains (O.bytes out.old) (O.bytes out.new) text
        × IsReport (F.contents files.old) [] (Notes (names_of names.now)) status text) }
    ensures refused { IfErr result (HasCause (record {
      files = F.contents files.old;
      plans = [];
      faults_before = F.faults files.old;
      faults_after = F.faults files.new;
      out_before = O.bytes out.old;
      out_after = O.bytes out.new;
      out_faults_before = O.faults out.old;
      out_faults_after = O.faults out.new;
    }) (Notes (names_of names.now))) }
{
    let text = report(alloc, names, files)?;
    if write_all(out, &text).is_err() {
        return Err(Refusal::Unwritten);
    }
    Ok(status::DONE)
}
