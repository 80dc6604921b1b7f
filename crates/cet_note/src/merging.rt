//! The note of several inputs.

ghost use Rattle.std.specs.Prelude.{◌≡◌, ◌∷◌, IfOk, OnOk};
ghost use Rattle.cet_note.specs.Note.{IsNote};
ghost use Rattle.cet_note.specs.Joined as spec;
ghost use Rattle.cet_note.specs.Joined.{JoinsAt, Joins};
ghost use Rattle.cet_note.specs.Merged.{IsMerged, IsMergedOf};

use crate::props::Props;
use crate::ranges::{is_and, is_or};
use cet_base::NoMemory;
use std::alloc::Global;

// The word, unless it has no set bit.
fn nonzero(bits: u32) -> Option<u32>
    ensures { result ≡ spec.nonzero bits }
{
    if bits == 0 { None } else { Some(bits) }
}

// The word of one type of two notes, from the words that each of them has.
fn joined(kind: u32, a: Option<u32>, b: Option<u32>) -> Option<u32>
    ensures { result ≡ spec.joined kind a b }
{
    if is_and(kind) {
        return nonzero(a.unwrap_or(0) & b.unwrap_or(0));
    }
    if is_or(kind) {
        return nonzero(a.unwrap_or(0) | b.unwrap_or(0));
    }
    match (a, b) {
        (Some(a), Some(b)) => Some(a | b),
        _ => None,
    }
}

// Joins the words of a and b at each type that `props` has.
fn join_types(out: &mut Props, props: &Props, a: &Props, b: &Props) -> Result<(), NoMemory>
    ensures joins { OnOk result (JoinsAt props.now a.now b.now out.old out.new) }
    ensures note { IsNote out.old → IsNote out.new }
{
    for (kind, _) in props.iter() {
        if let Some(bits) = joined(*kind, a.get(*kind), b.get(*kind)) {
            out.set(*kind, bits)?;
        }
    }
    Ok(())
}

// The note of two inputs.
fn join(alloc: Global, a: &Props, b: &Props) -> Result<Props, NoMemory>
    ensures joins { IfOk result (Joins a.now b.now) }
    ensures note { IfOk result IsNote }
{
    let mut out = Props::new(alloc);
    join_types(&mut out, a, a, b)?;
    join_types(&mut out, b, a, b)?;
    Ok(out)
}

// The note of one input or more.
fn join_all(alloc: Global, first: &Props, others: &[Props]) -> Result<Props, NoMemory>
    ensures { IfOk result (IsMergedOf (first.now ∷ others.now)) }
{
    // A note joined with itself loses the words that have no set bit.
    let mut merged = join(alloc, first, first)?;
    for input in others {
        merged = join(alloc, &merged, input)?;
    }
    Ok(merged)
}

/// The properties that a link of these inputs may claim (System V x86-64 psABI, "Program Property"). Of the types of the
/// AND range a bit is set where every input sets it, of those of the OR range where some input does, and a word without a
/// set bit is left out. A property of the OR_AND range is there where every input has it, with the bits that some input
/// sets. An input without a note has no property. No inputs give no property.
pub fn merge(alloc: Global, inputs: &[Props]) -> Result<Props, NoMemory>
    ensures { IfOk result (IsMerged inputs.now) }
{
    match inputs {
        [] => Ok(Props::new(alloc)),
        [first, others @ ..] => join_all(alloc, first, others),
    }
}
