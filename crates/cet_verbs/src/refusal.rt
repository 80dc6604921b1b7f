//! Why a command was refused, and how that is told on standard error.

ghost use Rattle.std.specs.Prelude.{◌≡◌, IfOk};
ghost use Rattle.std.specs.String.{string_bytes};
ghost use Rattle.cet_base.specs.Text.{hexadecimal};
ghost use Rattle.cet_verbs.specs.Answer.{GainsOrFails};
ghost use Rattle.cet_verbs.specs.Text.{file_line as line_of_file};
ghost use Rattle.cet_verbs.specs.Unfit.{reason, place as place_of, bad_line, elf_word as word_of_elf, elf_place as place_in_file, fault_word as word_of, asm_word as word_of_asm, no_form_word as word_of_no_form, fault_place as offset_of, schedule_word as word_of_schedule, schedule_line as line_of_schedule, image_word as word_of_image, image_place as place_of_image, load_word as word_of_load, load_place as place_of_load};

use crate::status;
use cet_asm::{AsmError, AsmKind};
use cet_base::{NoMemory, Sink, write_all};
use cet_elf::ElfError;
use cet_image::ImageError;
use cet_isa::DecodeError;
use cet_kernel::LoadError;
use cet_note::NoteError;
use cet_schedule::ScheduleError;
use std::alloc::{AllocError, Global};

/// Why a file is unfit for a command.
#[derive(Clone, Copy, Debug, PartialEq, Eq)]
pub enum Unfit {
    /// It has no byte.
    Empty,
    /// It is longer than is read.
    TooLarge,
    /// It is no object, for this fault, where one is asked for.
    NoObject(ElfError),
    /// What it has as its property note is none, for this fault.
    NoNote(NoteError),
    /// It is no assembly text, for this fault, where one is asked for.
    NoAssembly(AsmError),
    /// The bytes at an address are no instruction, for this reason, where a listing is asked for.
    NoForm { at: u64, why: DecodeError },
    /// It is no schedule, for this fault, where one is asked for.
    NoSchedule(ScheduleError),
    /// It is no executable, for this fault, where one is asked for.
    NoExec(ElfError),
    /// The program that it holds, an executable or raw code, is no image, for this reason, where it is to be certified or run.
    NoImage(ImageError),
    /// The program that it holds is not loaded, for this reason, where it is to be run.
    NoLoad(LoadError),
    /// What the object that it holds has as its property note is none, for this fault, where it is to be linked.
    NoInputNote(NoteError),
}

// The word for the fault of an object or an executable.
fn elf_word(fault: ElfError) -> &'static str
    ensures { result.now ≡ word_of_elf fault }
{
    match fault {
        ElfError::Magic { .. } => "magic",
        ElfError::Class { .. } => "class",
        ElfError::Machine { .. } => "machine",
        ElfError::Kind { .. } => "kind",
        ElfError::Bounds { .. } => "bounds",
        ElfError::Name { .. } => "name",
        ElfError::SymbolIndex { .. } => "symbolindex",
        ElfError::RelaType { .. } => "relatype",
        ElfError::TooMany { .. } => "toomany",
        ElfError::Unsupported { .. } => "unsupported",
        ElfError::NoMemory => "nomemory",
    }
}

// The offset in the file of the field that has it.
fn elf_place(fault: ElfError) -> u64
    ensures { result ≡ place_in_file fault }
{
    match fault {
        ElfError::Magic { at }
        | ElfError::Class { at }
        | ElfError::Machine { at }
        | ElfError::Kind { at }
        | ElfError::Bounds { at }
        | ElfError::Name { at }
        | ElfError::SymbolIndex { at }
        | ElfError::RelaType { at, .. }
        | ElfError::TooMany { at }
        | ElfError::Unsupported { at } => at,
        ElfError::NoMemory => 0,
    }
}

// The word for the fault of a note.
fn fault_word(fault: NoteError) -> &'static str
    ensures { result.now ≡ word_of fault }
{
    match fault {
        NoteError::Cut { .. } => "cut",
        NoteError::Name { .. } => "name",
        NoteError::Kind { .. } => "kind",
        NoteError::Size { .. } => "size",
        NoteError::Order { .. } => "order",
        NoteError::Twice { .. } => "twice",
        NoteError::NoMemory => "nomemory",
    }
}

// The offset of the field that has it.
fn fault_place(fault: NoteError) -> u64
    ensures { result ≡ offset_of fault }
{
    match fault {
        NoteError::Cut { at }
        | NoteError::Name { at }
        | NoteError::Kind { at }
        | NoteError::Size { at }
        | NoteError::Order { at }
        | NoteError::Twice { at } => at,
        NoteError::NoMemory => 0,
    }
}

// The word for why some bytes are no instruction.
fn no_form_word(why: DecodeError) -> &'static str
    ensures { result.now ≡ word_of_no_form why }
{
    match why {
        DecodeError::Short => "short",
        DecodeError::Outside => "outside",
    }
}

// The word for what is wrong with an assembly text.
fn asm_word(kind: AsmKind) -> &'static str
    ensures { result.now ≡ word_of_asm kind }
{
    match kind {
        AsmKind::Word => "word",
        AsmKind::Operand => "operand",
        AsmKind::Range => "range",
        AsmKind::Label => "label",
        AsmKind::Twice => "twice",
        AsmKind::TooMany => "toomany",
        AsmKind::NoMemory => "nomemory",
    }
}

// The word for what is wrong with a schedule.
fn schedule_word(fault: ScheduleError) -> &'static str
    ensures { result.now ≡ word_of_schedule fault }
{
    match fault {
        ScheduleError::Line { .. } => "line",
        ScheduleError::TooMany { .. } => "toomany",
        ScheduleError::NoMemory => "nomemory",
    }
}

// The line that has it.
fn schedule_line(fault: ScheduleError) -> u32
    ensures { result ≡ line_of_schedule fault }
{
    match fault {
        ScheduleError::Line { line } | ScheduleError::TooMany { line } => line,
        ScheduleError::NoMemory => 0,
    }
}

// The word for why an executable is no image.
fn image_word(error: ImageError) -> &'static str
    ensures { result.now ≡ word_of_image error }
{
    match error {
        ImageError::Empty => "empty",
        ImageError::Note { error } => fault_word(error),
        ImageError::TooMany => "toomany",
        ImageError::Range { .. } => "range",
        ImageError::Overlap { .. } => "overlap",
        ImageError::NoMemory => "nomemory",
    }
}

// The word for why a program is not loaded.
fn load_word(fault: LoadError) -> &'static str
    ensures { result.now ≡ word_of_load fault }
{
    match fault {
        LoadError::Place { .. } => "place",
        LoadError::Shared { .. } => "shared",
        LoadError::NoMemory => "nomemory",
    }
}

// The start of the segment that has it.
fn load_place(fault: LoadError) -> u64
    ensures { result ≡ place_of_load fault }
{
    match fault {
        LoadError::Place { at } => at,
        LoadError::Shared { a, .. } => a,
        LoadError::NoMemory => 0,
    }
}

// An address as text.
fn address(at: u64, alloc: Global) -> Result<String, AllocError>
    ensures { IfOk result (λ text. string_bytes text ≡ hexadecimal at) }
{
    format!(in alloc; "0x{at:x}")
}

// Where an executable is no image: an offset in its note, or an address.
fn image_place(error: ImageError, alloc: Global) -> Result<String, AllocError>
    ensures { IfOk result (λ text. string_bytes text ≡ place_of_image error) }
{
    match error {
        ImageError::Note { error } => fault_place(error).to_string(alloc),
        ImageError::Range { at } => address(at, alloc),
        ImageError::Overlap { a, .. } => address(a, alloc),
        ImageError::Empty | ImageError::TooMany | ImageError::NoMemory => {
            String::from_str(alloc, "0")
        }
    }
}

impl Unfit {
    fn word(self) -> &'static str
        ensures { result.now ≡ reason self }
    {
        match self {
            Unfit::Empty => "empty",
            Unfit::TooLarge => "toolarge",
            Unfit::NoObject(fault) => elf_word(fault),
            Unfit::NoNote(fault) | Unfit::NoInputNote(fault) => fault_word(fault),
            Unfit::NoAssembly(fault) => asm_word(fault.kind),
            Unfit::NoForm { why, .. } => no_form_word(why),
            Unfit::NoSchedule(fault) => schedule_word(fault),
            Unfit::NoExec(fault) => elf_word(fault),
            Unfit::NoImage(error) => image_word(error),
            Unfit::NoLoad(fault) => load_word(fault),
        }
    }

    fn place(self, alloc: Global) -> Result<String, AllocError>
        ensures { IfOk result (λ text. string_bytes text ≡ place_of self) }
    {
        match self {
            Unfit::NoObject(fault) => elf_place(fault).to_string(alloc),
            Unfit::NoNote(fault) | Unfit::NoInputNote(fault) => {
                fault_place(fault).to_string(alloc)
            }
            Unfit::NoAssembly(fault) => fault.line.to_string(alloc),
            Unfit::NoForm { at, .. } => address(at, alloc),
            Unfit::NoSchedule(fault) => schedule_line(fault).to_string(alloc),
            Unfit::NoExec(fault) => elf_place(fault).to_string(alloc),
            Unfit::NoImage(error) => image_place(error, alloc),
            Unfit::NoLoad(fault) => address(load_place(fault), alloc),
            _ => String::from_str(alloc, "0"),
        }
    }
}

/// Why a command was refused.
#[derive(Drop)]
pub enum Refusal<'a> {
    /// The file of this name could not be read.
    Unread(&'a str),
    /// The file of this name is not of its form.
    Unfit(&'a str, Unfit),
    /// The file of this name could not be replaced. The line that tells it was made before.
    Unreplaced(&'a str, Vec<u8>),
    /// There was no memory; nothing was written.
    NoMemory,
    /// The output failed.
    Unwritten,
}

/// Writes the text, as far as the output takes it.
pub fn say<E: Sink>(err: &mut E, text: &[u8])
    ensures said { GainsOrFails (E.bytes err.old) (E.bytes err.new) (E.faults err.old) (E.faults err.new) text.now }
{
    let _ = write_all(err, text);
}

/// The line `cet: file NAME`.
pub fn file_line(alloc: Global, name: &str) -> Result<Vec<u8>, NoMemory>
    ensures { IfOk result (λ text. text.items ≡ line_of_file name.now) }
{
    let mut text = Vec::from_slice(alloc, b"cet: file ")?;
    text.extend_from_slice(name.as_bytes())?;
    text.push(b'\n')?;
    Ok(text)
}

// The line `cet: bad NAME at N: WHY`.
fn unfit_line(alloc: Global, name: &str, why: Unfit) -> Result<Vec<u8>, NoMemory>
    ensures { IfOk result (λ text. text.items ≡ bad_line name.now why) }
{
    let mut text = Vec::from_slice(alloc, b"cet: bad ")?;
    text.extend_from_slice(name.as_bytes())?;
    text.extend_from_slice(b" at ")?;
    text.extend_from_slice(why.place(alloc)?.as_bytes())?;
    text.extend_from_slice(b": ")?;
    text.extend_from_slice(why.word().as_bytes())?;
    text.push(b'\n')?;
    Ok(text)
}

impl Refusal<'_> {
    ghost use Rattle.cet_verbs.specs.Refused.{Tells};

    /// Tells the refusal on standard error, and answers its status.
    pub fn tell<E: Sink>(&self, alloc: Global, err: &mut E) -> u8
        ensures told { Tells self.now result (E.bytes err.old) (E.bytes err.new) (E.faults err.old) (E.faults err.new) }
    {
        let (line, status) = match self {
            Refusal::Unread(name) => (file_line(alloc, name), status::UNREAD),
            Refusal::Unreplaced(_, line) => {
                say(err, line);
                return status::UNREAD;
            }
            Refusal::Unfit(name, why) => (unfit_line(alloc, name, *why), status::UNFIT),
            Refusal::NoMemory => return status::NO_MEMORY,
            Refusal::Unwritten => return status::UNWRITTEN,
        };
        match line {
            Ok(text) => {
                say(err, &text);
                status
            }
            Err(NoMemory) => status::NO_MEMORY,
        }
    }
}
