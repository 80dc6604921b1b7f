//! `link --out OUT [--entry NAME] FILE...`: a static executable of objects.

ghost use Rattle.std.specs.Prelude.{◌≡◌, ◌≢◌, ◌≤◌, ◌<◌, ◌^◌, ◌++◌, ℕ, List, [], Option, Some, All, IfOk, IfErr, length, codes};
ghost use Rattle.cet_base.specs.Files.{Contents, FileMeets, Replaces};
ghost use Rattle.cet_base.specs.Sink.{Gains};
ghost use Rattle.cet_base.specs.Text.{line as line_of};
ghost use Rattle.cet_elf.specs.Consistent.{IsConsistent};
ghost use Rattle.cet_elf.specs.ObjectFile.{IsObjectFile};
ghost use Rattle.cet_exec.specs.ExecFile.{IsExecFile};
ghost use Rattle.cet_exec.specs.Regular.{IsRegularExec};
ghost use Rattle.cet_exec.specs.Written.{written as written_exec};
ghost use Rattle.cet_verbs.specs.Command.{Command, Link};
ghost use Rattle.cet_verbs.specs.Named.{names_of};
ghost use Rattle.cet_verbs.specs.Held.{HoldsBytes};
ghost use Rattle.cet_verbs.specs.Links.{HoldObjects, IsOfLink, word_at as word_of_input, section_name as name_of_section, fault_line as line_of_fault};
ghost use Rattle.cet_verbs.specs.Named.{link_of};
ghost use Rattle.cet_verbs.specs.Notes.{AllBoth, items_of};
ghost use Rattle.cet_verbs.specs.Steps.{Form, Replace};
ghost use Rattle.cet_verbs.specs.Answer.{IsReport, LeavesWith};
ghost use Rattle.cet_verbs.specs.Refused.{HasCause, IsAtStep, IsOfFiles, IsNoLine, IsUntold, LeavesRefused};

use crate::forms::no_object;
use crate::reading::read_files;
use crate::refusal::{Refusal, Unfit, file_line};
use crate::status;
use cet_base::{Files, NoMemory, Sink, write_all};
use cet_elf::{Exec, Object, read_object};
use cet_exec::write_exec;
use cet_link::{LinkError, link as link_objects};
use std::alloc::Global;

/// What `link` is asked for.
#[derive(Drop)]
pub struct LinkRequest<'a> {
    /// The file of the executable.
    pub to: &'a str,
    /// The symbol where it starts.
    pub start: &'a str,
    /// The files of the objects.
    pub files: Vec<&'a str>,
}

/// The most objects that are linked.
const MOST_OBJECTS: usize = 0xffff_ffff;

// The object that the file `name` of these bytes is.
fn read_input<'a>(alloc: Global, name: &'a str, bytes: &[u8]) -> Result<Object, Refusal<'a>>
    ensures object { IfOk result (IsObjectFile bytes.now) }
    ensures consistent { IfOk result IsConsistent }
    ensures refused { IfErr result (λ refusal. (told : Option Contents) (before after : ℕ) (to start : List ℕ) (names : List (List ℕ))
        → FileMeets told name.now (λ held. held ≡ bytes.now) → IsAtStep told before after (Link to start names) (Form name.now) refusal) }
{
    match read_object(alloc, bytes) {
        Ok(object) => Ok(object),
        Err(fault) => Err(no_object(name, fault)),
    }
}

// The object of each file, from the bytes that it holds.
fn read_inputs<'a>(
    alloc: Global,
    names: &[&'a str],
    held: &[Vec<u8>],
) -> Result<Vec<Object>, Refusal<'a>>
    requires { length names.now ≡ length held.now }
    ensures objects { IfOk result (λ objects. AllBoth IsObjectFile (items_of held.now) objects.items) }
    ensures consistent { IfOk result (λ objects. All IsConsistent objects.items) }
    ensures refused { IfErr result (λ refusal. (told : Option Contents) (before after : ℕ) (to start : List ℕ)
        → AllBoth (HoldsBytes told) (names_of names.now) (items_of held.now) → IsOfFiles told before after (Link to start (names_of names.now)) refusal) }
{
    let mut objects = Vec::new(alloc);
    for (i, name) in names.iter().enumerate() {
        let object = read_input(alloc, *name, &held[i])?;
        if objects.push(object).is_err() {
            return Err(Refusal::NoMemory);
        }
    }
    Ok(objects)
}

// The objects that the files hold, fewer than 2^32.
fn inputs<'a, F: Files>(
    alloc: Global,
    names: &[&'a str],
    files: &mut F,
) -> Result<Vec<Object>, Refusal<'a>>
    ensures contents { F.contents files.new ≡ F.contents files.old }
    ensures faults { F.faults files.old ≤ F.faults files.new }
    ensures objects { IfOk result (λ objects. HoldObjects (F.contents files.old) (names_of names.now) objects.items) }
    ensures consistent { IfOk result (λ objects. All IsConsistent objects.items) }
    ensures few { IfOk result (λ objects. length objects.items < 2 ^ 32) }
    ensures refused { IfErr result (λ refusal. (to start : List ℕ)
        → IsOfFiles (F.contents files.old) (F.faults files.old) (F.faults files.new) (Link to start (names_of names.now)) refusal) }
{
    let held = read_files(alloc, names, files)?;
    let objects = read_inputs(alloc, names, &held)?;
    if objects.len() > MOST_OBJECTS {
        return Err(Refusal::NoMemory);
    }
    Ok(objects)
}

// The word of the input of this number.
fn word_at<'a>(names: &[&'a str], input: u32) -> &'a str
    ensures { result.now ≡ word_of_input (names_of names.now) input }
{
    match names.get(input as usize) {
        Some(name) => *name,
        None => "",
    }
}

// The name of a section of an input.
fn section_name(objects: &[Object], input: u32, section: u32) -> &[u8]
    ensures { result.now ≡ name_of_section objects.now input section }
{
    let Some(object) = objects.get(input as usize) else {
        return &[];
    };
    match object.sections.get(section as usize) {
        Some(found) => found.name.as_slice(),
        None => &[],
    }
}

// A line of a word and a name.
fn line(alloc: Global, head: &[u8], name: &[u8]) -> Result<Vec<u8>, NoMemory>
    ensures { IfOk result (λ text. text.items ≡ line_of (head.now ++ name.now)) }
{
    let mut text = Vec::from_slice(alloc, head)?;
    text.extend_from_slice(name)?;
    text.push(b'\n')?;
    Ok(text)
}

// A line of a word and two names.
fn two_line(alloc: Global, head: &[u8], name: &[u8], other: &[u8]) -> Result<Vec<u8>, NoMemory>
    ensures { IfOk result (λ text. text.items ≡ line_of (head.now ++ name.now ++ codes " " ++ other.now)) }
{
    let mut text = Vec::from_slice(alloc, head)?;
    text.extend_from_slice(name)?;
    text.push(b' ')?;
    text.extend_from_slice(other)?;
    text.push(b'\n')?;
    Ok(text)
}

// A line of a word and three names.
fn three_line(
    alloc: Global,
    head: &[u8],
    name: &[u8],
    other: &[u8],
    last: &[u8],
) -> Result<Vec<u8>, NoMemory>
    ensures { IfOk result (λ text. text.items ≡ line_of (head.now ++ name.now ++ codes " " ++ other.now ++ codes " " ++ last.now)) }
{
    let mut text = Vec::from_slice(alloc, head)?;
    text.extend_from_slice(name)?;
    text.push(b' ')?;
    text.extend_from_slice(other)?;
    text.push(b' ')?;
    text.extend_from_slice(last)?;
    text.push(b'\n')?;
    Ok(text)
}

// The line of a fault of the link. What is no such fault has none, and is answered as want of memory.
fn fault_line(
    alloc: Global,
    start: &str,
    names: &[&str],
    objects: &[Object],
    fault: &LinkError,
) -> Result<Vec<u8>, NoMemory>
    ensures of_link { IfOk result (λ text. IsOfLink fault.now) }
    ensures text { IfOk result (λ text. text.items ≡ line_of_fault start.now (names_of names.now) objects.now fault.now) }
{
    match fault {
        LinkError::Group { input } => line(alloc, b"group ", word_at(names, *input).as_bytes()),
        LinkError::Common { name, input } => {
            two_line(
                alloc,
                b"common ",
                name.as_slice(),
                word_at(names, *input).as_bytes(),
            )
        }
        LinkError::Duplicate {
            name,
            first,
            second,
        } => three_line(
            alloc,
            b"duplicate ",
            name.as_slice(),
            word_at(names, *first).as_bytes(),
            word_at(names, *second).as_bytes(),
        ),
        LinkError::Undefined { name, input } => {
            two_line(
                alloc,
                b"undefined ",
                name.as_slice(),
                word_at(names, *input).as_bytes(),
            )
        }
        LinkError::NoEntry => line(alloc, b"noentry ", start.as_bytes()),
        LinkError::TooLarge => line(alloc, b"toolarge", &[]),
        LinkError::Overflow {
            input,
            section,
            offset,
        } => three_line(
            alloc,
            b"overflow ",
            word_at(names, *input).as_bytes(),
            section_name(objects, *input, *section),
            offset.to_string(alloc)?.as_bytes(),
        ),
        LinkError::Note { .. } | LinkError::NoMemory => Err(NoMemory),
    }
}

// The line of the fault, or the refusal of the file whose note it is of.
fn fault_told<'a>(
    alloc: Global,
    start: &str,
    names: &[&'a str],
    objects: &[Object],
    fault: LinkError,
) -> Result<Vec<u8>, Refusal<'a>>
    ensures of_link { IfOk result (λ text. IsOfLink fault) }
    ensures text { IfOk result (λ text. text.items ≡ line_of_fault start.now (names_of names.now) objects.now fault) }
    ensures refused { IfErr result (IsNoLine (names_of names.now) fault) }
{
    if let LinkError::Note { input, error } = fault {
        return Err(Refusal::Unfit(word_at(names, input), Unfit::NoInputNote(error)));
    }
    match fault_line(alloc, start, names, objects, &fault) {
        Ok(text) => Ok(text),
        Err(NoMemory) => Err(Refusal::NoMemory),
    }
}

// Tells the fault on the output, or refuses the file whose note it is of.
fn refuse<'a, O: Sink>(
    alloc: Global,
    start: &str,
    names: &[&'a str],
    objects: &[Object],
    fault: LinkError,
    out: &mut O,
) -> Result<u8, Refusal<'a>>
    ensures status { IfOk result (λ status. status ≡ 1) }
    ensures of_link { IfOk result (λ status. IsOfLink fault) }
    ensures told { IfOk result (λ status. Gains (O.bytes out.old) (O.bytes out.new) (line_of_fault start.now (names_of names.now) objects.now fault)) }
    ensures untold { IfErr result (IsUntold (O.bytes out.old) (O.bytes out.new) (O.faults out.old) (O.faults out.new) start.now (names_of names.now) objects.now fault) }
{
    let text = fault_told(alloc, start, names, objects, fault)?;
    if write_all(out, &text).is_err() {
        return Err(Refusal::Unwritten);
    }
    Ok(status::UNLINKED)
}

// Makes the file `to` the executable.
fn save<'a, F: Files>(
    alloc: Global,
    to: &'a str,
    exec: &Exec,
    files: &mut F,
) -> Result<u8, Refusal<'a>>
    requires { IsRegularExec exec.now }
    ensures status { IfOk result (λ status. status ≡ 0) }
    ensures executable { IfOk result (λ status. IsExecFile (written_exec exec.now) exec.now) }
    ensures replaced { IfOk result (λ status. Replaces (F.contents files.old) (F.contents files.new) to.now (written_exec exec.now)) }
    ensures refused { IfErr result (λ refusal. (command : Command) → IsAtStep (F.contents files.old) (F.faults files.old) (F.faults files.new) command (Replace to.now) refusal) }
    ensures others { IfErr result (LeavesRefused (F.contents files.old) (F.contents files.new)) }
{
    let Ok(bytes) = write_exec(alloc, exec) else {
        return Err(Refusal::NoMemory);
    };
    let Ok(line) = file_line(alloc, to) else {
        return Err(Refusal::NoMemory);
    };
    match files.replace(to, &bytes) {
        Ok(()) => Ok(status::DONE),
        Err(_) => Err(Refusal::Unreplaced(to, line)),
    }
}

/// Reads the objects, links them, and makes the file `to` the executable, or tells on the output why they are not linked.
pub fn link<'a, F: Files, O: Sink>(
    alloc: Global,
    request: LinkRequest<'a>,
    files: &mut F,
    out: &mut O,
) -> Result<u8, Refusal<'a>>
    ensures left { IfOk result (λ status. LeavesWith status (F.contents files.old) (F.contents files.new) (link_of request.entry)) }
    ensures left_refused { IfErr result (LeavesRefused (F.contents files.old) (F.contents files.new)) }
    ensures reported { IfOk result (λ status. (text : List ℕ) × Gains (O.bytes out.old) (O.bytes out.new) text
        × IsReport (F.contents files.old) [] (link_of request.entry) status text) }
    ensures refused { IfErr result (HasCause (record {
      files = F.contents files.old;
      plans = [];
      faults_before = F.faults files.old;
      faults_after = F.faults files.new;
      out_before = O.bytes out.old;
      out_after = O.bytes out.new;
      out_faults_before = O.faults out.old;
      out_faults_after = O.faults out.new;
    }) (link_of request.entry)) }
{
    let names = request.files.as_slice();
    let objects = inputs(alloc, names, files)?;
    match link_objects(alloc, &objects, request.start) {
        Ok(exec) => save(alloc, request.to, &exec, files),
        Err(fault) => refuse(alloc, request.start, names, &objects, fault, out),
    }
}
