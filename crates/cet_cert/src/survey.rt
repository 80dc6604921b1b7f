//! Where the pieces of a function start, by its addresses, so that the target of a branch is looked up at once.
ghost use Rattle.std.specs.Prelude.{IfOk};
ghost use Rattle.cet_cert.specs.Survey.{IsMark, IsMarkOf, IsSurvey};

use crate::pieces::{piece_at, prologue_end};
use cet_base::NoMemory;
use cet_rules::{Covered, Function, Image, PieceKind};
use std::alloc::Global;

/// What stands at an address of a function.
#[derive(Clone, Copy)]
pub enum Mark {
    /// No piece starts here.
    Inside,
    /// A piece starts here that is no single ENDBR64.
    Start,
    /// A single ENDBR64 starts here.
    Landing,
}

/// The marks of a function's addresses up to where the cutting stops.
#[derive(Drop)]
pub struct Survey {
    pub marks: Vec<Mark>,
    /// The end of the function, or the place in it where no instruction stands.
    pub stop: u64,
}

/// Cuts the function, in time and memory of about its length.
pub fn mark_pieces(alloc: Global, image: &Image, function: &Function) -> Result<Survey, NoMemory>
    ensures { IfOk result (λ s. IsSurvey image.now function.now s) }
{
    let mut at = prologue_end(image, function);
    let mut marks = Vec::new(alloc);
    marks.resize((at - function.start) as usize, Mark::Inside)?;
    while let Some(piece) = piece_at(image, function, at) {
        marks.push(mark_of(piece.kind))?;
        marks.resize((piece.next - function.start) as usize, Mark::Inside)?;
        at = piece.next;
    }
    Ok(Survey { marks, stop: at })
}

// What stands at `at`.
pub fn mark_at(image: &Image, function: &Function, survey: &Survey, at: u64) -> Mark
    requires { IsSurvey image.now function.now survey.now }
    ensures { IsMark image.now function.now at result }
{
    match at.checked_sub(function.start) {
        Some(offset) => survey
            .marks
            .get(offset as usize)
            .copied()
            .unwrap_or(Mark::Inside),
        None => Mark::Inside,
    }
}

fn mark_of(kind: PieceKind) -> Mark
    ensures { IsMarkOf kind result }
{
    match kind {
        PieceKind::Single(Covered::EndBr64) => Mark::Landing,
        _ => Mark::Start,
    }
}
