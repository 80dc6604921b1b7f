//! The reading of the files that a command names.

ghost use Rattle.std.specs.Prelude.{◌≡◌, ◌≤◌, IfOk, IfErr};
ghost use Rattle.cet_verbs.specs.Command.{Command, files_of};
ghost use Rattle.cet_verbs.specs.Named.{names_of};
ghost use Rattle.cet_verbs.specs.Held.{HoldsBytes};
ghost use Rattle.cet_verbs.specs.Notes.{AllBoth, items_of};
ghost use Rattle.cet_verbs.specs.Steps.{Read};
ghost use Rattle.cet_verbs.specs.Refused.{IsAtStep, IsOfFiles};

use crate::refusal::{Refusal, Unfit};
use cet_base::{Files, ReadError, read_all};
use std::alloc::Global;

/// The bytes of a file.
pub fn read_file<'a, F: Files>(
    alloc: Global,
    name: &'a str,
    files: &mut F,
) -> Result<Vec<u8>, Refusal<'a>>
    ensures contents { F.contents files.new ≡ F.contents files.old }
    ensures faults { F.faults files.old ≤ F.faults files.new }
    ensures held { IfOk result (λ bytes. HoldsBytes (F.contents files.old) name.now bytes.items) }
    ensures refused { IfErr result (λ refusal. (command : Command)
        → IsAtStep (F.contents files.old) (F.faults files.old) (F.faults files.new) command (Read name.now) refusal) }
{
    match read_all(alloc, files, name) {
        Ok(bytes) => Ok(bytes),
        Err(ReadError::Failed) => Err(Refusal::Unread(name)),
        Err(ReadError::TooLarge) => Err(Refusal::Unfit(name, Unfit::TooLarge)),
        Err(ReadError::NoMemory) => Err(Refusal::NoMemory),
    }
}

/// The bytes of each file, in the order of the names.
pub fn read_files<'a, F: Files>(
    alloc: Global,
    names: &[&'a str],
    files: &mut F,
) -> Result<Vec<Vec<u8>>, Refusal<'a>>
    ensures contents { F.contents files.new ≡ F.contents files.old }
    ensures faults { F.faults files.old ≤ F.faults files.new }
    ensures held { IfOk result (λ held. AllBoth (HoldsBytes (F.contents files.old)) (names_of names.now) (items_of held.items)) }
    ensures refused { IfErr result (λ refusal. (command : Command) → files_of command ≡ names_of names.now
        → IsOfFiles (F.contents files.old) (F.faults files.old) (F.faults files.new) command refusal) }
{
    let mut held = Vec::new(alloc);
    for name in names {
        let bytes = read_file(alloc, *name, files)?;
        if held.push(bytes).is_err() {
            return Err(Refusal::NoMemory);
        }
    }
    Ok(held)
}
