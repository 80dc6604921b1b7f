//! What is wrong with the inputs of a link, or all that their executable is made of.

ghost use Rattle.std.specs.Prelude.{◌≡◌, ◌≢◌, ◌<◌, ◌^◌, true, IfOk, IfErr, All, length, ℕ, List};
ghost use Rattle.cet_elf.specs.Consistent.{IsConsistent};
ghost use Rattle.cet_link.specs.declared.error.LinkError.TheVariants as errors;
ghost use Rattle.cet_link.specs.First.{Finds};
ghost use Rattle.cet_link.specs.Inputs.{symbols};
ghost use Rattle.cet_link.specs.Faults.{size_faults, classes_fit};
ghost use Rattle.cet_link.specs.Known.{AreNames};
ghost use Rattle.cet_link.specs.Laid.{NoGroups, IsFrame, AreTables};
ghost use Rattle.cet_link.specs.Links.{IsLinkFault, Refuses};
ghost use Rattle.cet_link.specs.Planned.{name_faults, IsResolved, IsMeasured, IsPlan};

use crate::entry::entry;
use crate::error::LinkError;
use crate::layout::{Frame, measure, places};
use crate::names::{Names, Seen};
use crate::notes::merged_note;
use crate::output::{check_names, kept_symbols};
use crate::overflow::check_overflow;
use crate::scan::scan;
use crate::undefined::check_undefined;
use crate::values::{Tables, values};
use cet_base::NoMemory;
use cet_elf::Object;
use std::alloc::Global;

/// The names of the inputs, and the definition of the entry.
#[derive(Drop)]
pub(crate) struct Resolved<'a> {
    pub(crate) names: Names<'a>,
    pub(crate) entry: Seen<'a>,
}

/// Where the classes start and end, and the symbols of the output.
#[derive(Drop)]
pub(crate) struct Measured<'a> {
    pub(crate) frame: Frame,
    pub(crate) kept: Vec<Seen<'a>>,
}

/// All that the executable of inputs without a fault is made of.
#[derive(Drop)]
pub(crate) struct Plan<'a> {
    /// The bytes of the merged note.
    pub(crate) note: Vec<u8>,
    pub(crate) resolved: Resolved<'a>,
    pub(crate) measured: Measured<'a>,
    pub(crate) tables: Tables,
}

// The names: Group, Common, Duplicate, Undefined and NoEntry.
fn resolve<'a>(alloc: Global, inputs: &'a [Object], name: &str) -> Result<Resolved<'a>, LinkError>
    requires { length inputs.now < 2 ^ 32 }
    ensures resolved { IfOk result (IsResolved inputs.now name.now) }
    ensures groups { IfOk result (λ _. NoGroups inputs.now) }
    ensures fault { Finds result (name_faults inputs.now name.now) }
{
    let names = scan(alloc, inputs)?;
    check_undefined(alloc, &names, inputs)?;
    let entry = entry(&names, name)?;
    Ok(Resolved { names, entry })
}

// The sizes: TooLarge.
fn measure_all<'a>(
    alloc: Global,
    inputs: &'a [Object],
    note: &[u8],
    names: &Names<'a>,
) -> Result<Measured<'a>, LinkError>
    requires few { length inputs.now < 2 ^ 32 }
    requires consistent { All IsConsistent inputs.now }
    requires names { AreNames (symbols inputs.now) names.now }
    ensures measured { IfOk result (IsMeasured inputs.now note.now) }
    ensures fault { Finds result (size_faults inputs.now note.now) }
{
    let Some(frame) = measure(inputs, note) else {
        return Err(LinkError::TooLarge);
    };
    let kept = kept_symbols(alloc, names, inputs)?;
    check_names(&kept)?;
    Ok(Measured { frame, kept })
}

// The places of sections and the values of symbols.
fn tables<'a>(
    alloc: Global,
    inputs: &'a [Object],
    frame: &Frame,
    names: &Names<'a>,
) -> Result<Tables, NoMemory>
    requires few { length inputs.now < 2 ^ 32 }
    requires consistent { All IsConsistent inputs.now }
    requires groups { NoGroups inputs.now }
    requires frame { (note : List ℕ) × (classes_fit inputs.now note ≡ true) × IsFrame inputs.now note frame.now }
    requires names { AreNames (symbols inputs.now) names.now }
    ensures { IfOk result (λ tables. (note : List ℕ) → IsFrame inputs.now note frame.now → AreTables inputs.now note tables) }
{
    let places = places(alloc, inputs, frame)?;
    let values = values(alloc, inputs, &places, names)?;
    Ok(Tables { places, values })
}

// All that the executable is made of, or the first fault.
fn make_plan<'a>(alloc: Global, inputs: &'a [Object], entry: &str) -> Result<Plan<'a>, LinkError>
    requires few { length inputs.now < 2 ^ 32 }
    requires consistent { All IsConsistent inputs.now }
    ensures plan { IfOk result (IsPlan inputs.now entry.now) }
    ensures fault { IfErr result (λ e. e ≢ errors.NoMemory → IsLinkFault inputs.now entry.now e) }
{
    let note = merged_note(alloc, inputs)?;
    let resolved = resolve(alloc, inputs, entry)?;
    let measured = measure_all(alloc, inputs, &note, &resolved.names)?;
    let tables = tables(alloc, inputs, &measured.frame, &resolved.names)?;
    check_overflow(&tables, inputs)?;
    Ok(Plan {
        note,
        resolved,
        measured,
        tables,
    })
}

/// All that the executable is made of, or the first fault.
pub(crate) fn check_link<'a>(
    alloc: Global,
    inputs: &'a [Object],
    entry: &str,
) -> Result<Plan<'a>, LinkError>
    requires few { length inputs.now < 2 ^ 32 }
    requires consistent { All IsConsistent inputs.now }
    ensures plan { IfOk result (IsPlan inputs.now entry.now) }
    ensures fault { IfErr result (λ e. e ≢ errors.NoMemory → IsLinkFault inputs.now entry.now e) }
    ensures refused { Refuses inputs.now entry.now result }
{
    make_plan(alloc, inputs, entry)
}
