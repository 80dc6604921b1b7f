//! The link of objects to an executable.

ghost use Rattle.std.specs.Prelude.{◌≡◌, ◌≢◌, ◌<◌, ◌^◌, All, IfOk, IfErr, length};
ghost use Rattle.cet_elf.specs.Consistent.{IsConsistent};
ghost use Rattle.cet_exec.specs.Regular.{IsRegularExec};
ghost use Rattle.cet_link.specs.declared.error.LinkError.TheVariants as errors;
ghost use Rattle.cet_link.specs.Linked.{note_of as note_of_bytes};
ghost use Rattle.cet_link.specs.Links.{IsLinked, IsLinkFault, Refuses, Links};

use crate::check::check_link;
use crate::error::LinkError;
use crate::segments::segments;
use crate::symbols::exec_symbols;
use crate::values::own_value;
use cet_base::{Bytes, NoMemory};
use cet_elf::{Exec, Object};
use std::alloc::Global;

// The note, unless it is empty.
fn note_of(alloc: Global, note: &[u8]) -> Result<Option<Bytes>, NoMemory>
    ensures { IfOk result (λ bytes. bytes ≡ note_of_bytes note.now) }
{
    if note.is_empty() {
        return Ok(None);
    }
    Ok(Some(Bytes::from_slice(alloc, note)?))
}

// The executable, or the first fault.
fn build(alloc: Global, inputs: &[Object], entry: &str) -> Result<Exec, LinkError>
    requires few { length inputs.now < 2 ^ 32 }
    requires consistent { All IsConsistent inputs.now }
    ensures linked { IfOk result (IsLinked inputs.now entry.now) }
    ensures fault { IfErr result (λ e. e ≢ errors.NoMemory → IsLinkFault inputs.now entry.now e) }
{
    let plan = check_link(alloc, inputs, entry)?;
    let segments = segments(
        alloc,
        inputs,
        &plan.note,
        &plan.measured.frame,
        &plan.tables,
    )?;
    let symbols = exec_symbols(alloc, &plan.tables.places, &plan.measured.kept)?;
    let notes = note_of(alloc, &plan.note)?;
    Ok(Exec {
        entry: own_value(&plan.tables.places, plan.resolved.entry),
        segments,
        symbols,
        notes,
    })
}

/// The static executable that a link editor makes of these objects (System V gABI, "Relocation", "Symbol Table"; psABI, "Relocation Types"), which
/// starts at the symbol `entry`. The sections that are executed start at 0x401000, then come those that are read alone, the merged property note
/// first, and those that are written.
///
/// The first fault is refused: a property note that cannot be read, a section group, a common symbol, a name with two global definitions, a symbol
/// that is not defined, an entry that is not there, a class of sections above 16,777,216 bytes or 2^31 bytes of names, and a relocation whose value
/// does not fit its field.
pub fn link(alloc: Global, inputs: &[Object], entry: &str) -> Result<Exec, LinkError>
    requires few { length inputs.now < 2 ^ 32 }
    requires consistent { All IsConsistent inputs.now }
    ensures linked { IfOk result (IsLinked inputs.now entry.now) }
    ensures regular { IfOk result IsRegularExec }
    ensures fault { IfErr result (λ e. e ≢ errors.NoMemory → IsLinkFault inputs.now entry.now e) }
    ensures refused { Refuses inputs.now entry.now result }
    ensures links { Links inputs.now entry.now result }
{
    build(alloc, inputs, entry)
}
