//! Sites as their parts, and how many bytes parts take.
ghost use Rattle.std.specs.Prelude.{◌≡◌, ◌+◌, ◌*◌, ◌<◌, ◌≤◌, length, IfOk};
ghost use Rattle.std.specs.List.{sum_by};
ghost use Rattle.cet_asm.specs.Emitted.{code_of, part_size as part_size_of, same_mark as same_mark_of, mark_place as mark_place_of};
ghost use Rattle.cet_asm.specs.Placing.{IsSite};
ghost use Rattle.cet_asm.specs.Sequence.{sequence as sequence_of};

use crate::part::{Mark, Part};
use crate::sequence::{action, fiber_make, land, read, release, spawn, switch, throw};
use cet_base::NoMemory;
use cet_encode::encode;
use cet_isa::{Insn, law};
use cet_syntax::Site;
use std::alloc::Global;

/// The most parts of a site.
pub(crate) const PART_LIMIT: usize = 27;

/// The bytes of an instruction's canonical form.
pub(crate) fn code_size(insn: Insn) -> u64
    ensures size { result ≡ length (code_of insn) }
    ensures small { result ≤ 15 }
{
    law::canonical_is_form();
    match encode(insn) {
        Ok(code) => code.as_bytes().len() as u64,
        Err(_) => 0,
    }
}

/// The bytes of a part.
pub(crate) fn part_size(part: &Part<'_>) -> u64
    ensures size { result ≡ part_size_of part.now }
    ensures small { result ≤ 15 }
{
    match part {
        Part::Whole(template) => code_size(template.insn),
        Part::Branch(..) => 6,
        Part::Resumption => 5,
        Part::Here(_) => 0,
    }
}

/// The bytes of parts.
pub(crate) fn parts_size(parts: &[Part<'_>]) -> u64
    requires { length parts.now ≤ PART_LIMIT }
    ensures size { result ≡ sum_by part_size_of parts.now }
    ensures small { result ≤ 15 * length parts.now }
{
    let mut size = 0;
    for part in parts {
        size += part_size(part);
    }
    size
}

fn same_mark(mark: Mark, other: Mark) -> bool
    ensures { result ≡ same_mark_of mark other }
{
    match (mark, other) {
        (Mark::Again, Mark::Again) => true,
        (Mark::Resumed, Mark::Resumed) => true,
        (Mark::Past, Mark::Past) => true,
        _ => false,
    }
}

/// The place of a mark among the parts, counted in bytes.
pub(crate) fn mark_place(mark: Mark, parts: &[Part<'_>]) -> u64
    requires { length parts.now ≤ PART_LIMIT }
    ensures place { result ≡ mark_place_of mark parts.now }
    ensures small { result ≤ 15 * length parts.now }
{
    let mut place = 0;
    for part in parts {
        if let Part::Here(other) = part {
            if same_mark(mark, *other) {
                return place;
            }
        }
        place += part_size(part);
    }
    place
}

/// The written sequence of a site.
pub(crate) fn parts<'a>(alloc: Global, site: &Site<'a>) -> Result<Vec<Part<'a>>, NoMemory>
    requires { IsSite site.now }
    ensures sequence { IfOk result (λ parts. parts.items ≡ sequence_of site.now) }
    ensures few { IfOk result (λ parts. length parts.items ≤ PART_LIMIT) }
{
    let parts = match site {
        Site::Land { record, landing } => Vec::from_array(alloc, land(*record, landing.copied()))?,
        Site::Release { record } => Vec::from_array(alloc, release(*record))?,
        Site::Throw => Vec::from_array(alloc, throw())?,
        Site::Switch { taken, published } => {
            Vec::from_array(alloc, switch(taken.copied(), published.copied()))?
        }
        Site::FiberMake {
            published,
            function,
        } => Vec::from_array(alloc, fiber_make(published.copied(), function.copied()))?,
        Site::Spawn { function } => Vec::from_array(alloc, spawn(function.copied()))?,
        Site::Action {
            signal,
            action: act,
        } => { Vec::from_array(alloc, action(*signal, act.copied()))? }
        Site::Read { buffer, size } => Vec::from_array(alloc, read(buffer.copied(), *size))?,
    };
    Ok(parts)
}
