//! `asm --out OUT FILE`: the object of an assembly text.

ghost use Rattle.std.specs.Prelude.{◌≡◌, ◌≢◌, ℕ, List, [], Option, IfOk, IfErr};
ghost use Rattle.cet_base.specs.Files.{Contents, FileMeets};
ghost use Rattle.cet_elf.specs.Regular.{IsRegular};
ghost use Rattle.cet_asm.specs.Assembled.{Assembles};
ghost use Rattle.cet_verbs.specs.Command.{Asm};
ghost use Rattle.cet_verbs.specs.Steps.{Form};
ghost use Rattle.cet_verbs.specs.Answer.{IsReport, Leaves};
ghost use Rattle.cet_verbs.specs.Refused.{IsAtStep, IsOfFiles, LeavesRefused};

use crate::reading::read_file;
use crate::refusal::{Refusal, Unfit, file_line};
use crate::status;
use cet_asm::{AsmKind, assemble};
use cet_base::Files;
use cet_elf::{Object, write_object};
use std::alloc::Global;

// The object of the text that the file `name` holds, for `asm` with any file after `--out`.
fn read_text<'a>(alloc: Global, name: &'a str, text: &[u8]) -> Result<Object, Refusal<'a>>
    ensures object { IfOk result (Assembles text.now) }
    ensures regular { IfOk result IsRegular }
    ensures refused { IfErr result (λ refusal. (told : Option Contents) (before after : ℕ) (out : List ℕ)
        → FileMeets told name.now (λ held. held ≡ text.now) → IsAtStep told before after (Asm out name.now) (Form name.now) refusal) }
{
    match assemble(alloc, text) {
        Ok(object) => Ok(object),
        Err(fault) if fault.kind == AsmKind::NoMemory => Err(Refusal::NoMemory),
        Err(fault) => Err(Refusal::Unfit(name, Unfit::NoAssembly(fault))),
    }
}

/// Reads the text, and makes the file `out` the object file of it.
pub fn asm<'a, F: Files>(
    alloc: Global,
    out: &'a str,
    file: &'a str,
    files: &mut F,
) -> Result<u8, Refusal<'a>>
    ensures reported { IfOk result (λ status. IsReport (F.contents files.old) [] (Asm out.now file.now) status []) }
    ensures replaced { IfOk result (λ status. Leaves (F.contents files.old) (F.contents files.new) (Asm out.now file.now)) }
    ensures refused { IfErr result (IsOfFiles (F.contents files.old) (F.faults files.old) (F.faults files.new) (Asm out.now file.now)) }
    ensures others { IfErr result (LeavesRefused (F.contents files.old) (F.contents files.new)) }
{
    let text = read_file(alloc, file, files)?;
    let object = read_text(alloc, file, &text)?;
    let Ok(bytes) = write_object(alloc, &object) else {
        return Err(Refusal::NoMemory);
    };
    let Ok(line) = file_line(alloc, out) else {
        return Err(Refusal::NoMemory);
    };
    match files.replace(out, &bytes) {
        Ok(()) => Ok(status::DONE),
        Err(_) => Err(Refusal::Unreplaced(out, line)),
    }
}
