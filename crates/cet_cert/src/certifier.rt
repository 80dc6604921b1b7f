//! The verdict on an image: its first broken rule.
ghost use Rattle.std.specs.Prelude.{◌≡◌, ◌<◌, ◌↔◌, ◌⊎◌, IsTrue, IfOk};
ghost use Rattle.std.specs.Option.{option_copied};
ghost use Rattle.cet_rules.specs.Image.{function_at};
ghost use Rattle.cet_rules.specs.Regular.{IsFunction};
ghost use Rattle.cet_rules.specs.Rule.{HasNoForm, Leaves, BrokenIn};
ghost use Rattle.cet_rules.specs.First.{IsFirst};
ghost use Rattle.cet_cert.specs.Breach.{IsFirstOf, PieceBreaks, PrologueBreaks, EntryBreaks};
ghost use Rattle.cet_cert.specs.Survey.{IsSurvey};

use crate::breach::{Breach, first_of};
use crate::pieces::{piece_at, prologue_end};
use crate::rules::{jumps_out, piece_breach};
use crate::survey::{Survey, mark_pieces};
use cet_base::NoMemory;
use cet_rules::{Function, Image, Piece, PieceKind, Verdict};
use std::alloc::Global;

/// Whether the image keeps all rules, or its first broken rule: the one at the lowest address, and of several there the one of
/// the lowest number. It takes memory for one function at a time, about a byte for each of its addresses.
pub fn certify(alloc: Global, image: &Image) -> Result<Verdict, NoMemory>
    ensures { IfOk result (λ verdict. IsFirst image.now verdict) }
{
    let mut first = entry_breach(image);
    for function in image.functions.as_slice() {
        let found = function_breach(alloc, image, function)?;
        first = first_of(first, found);
    }
    Ok(match first {
        None => Verdict::Accepted,
        Some(breach) => Verdict::Refused {
            rule: breach.rule,
            at: breach.at,
        },
    })
}

// Rule 5.
fn entry_breach(image: &Image) -> Option<Breach>
    ensures { IsFirstOf (EntryBreaks image.now) result }
{
    let breach = Breach {
        rule: 5,
        at: image.entry,
    };
    match function_at(image, image.entry) {
        None => Some(breach),
        Some(function) => leaves(image, function).then_some(breach),
    }
}

fn function_at(image: &Image, at: u64) -> Option<&Function>
    ensures { option_copied result ≡ function_at image.now at }
{
    image
        .functions
        .as_slice()
        .iter()
        .find(|function| function.start == at)
}

fn leaves(image: &Image, function: &Function) -> bool
    ensures { IsTrue result ↔ Leaves image.now function.now }
{
    let mut at = prologue_end(image, function);
    while let Some(piece) = piece_at(image, function, at) {
        if jumps_out(function, piece) {
            return true;
        }
        at = piece.next;
    }
    false
}

fn function_breach(
    alloc: Global,
    image: &Image,
    function: &Function,
) -> Result<Option<Breach>, NoMemory>
    requires { IsFunction function.now }
    ensures { IfOk result (λ found. IsFirstOf (BrokenIn image.now function.now) found) }
{
    let survey = mark_pieces(alloc, image, function)?;
    let outside = first_of(
        stop_breach(image, function, &survey),
        prologue_breach(image, function, &survey),
    );
    Ok(first_of(outside, pieces_breach(image, function, &survey)))
}

// Rule 6: the cutting stops before the function's end.
fn stop_breach(image: &Image, function: &Function, survey: &Survey) -> Option<Breach>
    requires regular { IsFunction function.now }
    requires survey { IsSurvey image.now function.now survey.now }
    ensures { IsFirstOf (λ rule a. (rule ≡ 6) × HasNoForm image.now function.now a) result }
{
    let inside = survey.stop - function.start < function.size;
    inside.then_some(Breach {
        rule: 6,
        at: survey.stop,
    })
}

fn prologue_breach(image: &Image, function: &Function, survey: &Survey) -> Option<Breach>
    requires { IsSurvey image.now function.now survey.now }
    ensures { IsFirstOf (PrologueBreaks image.now function.now) result }
{
    let at = function.start;
    let next = prologue_end(image, function);
    if at == next {
        return None;
    }
    let kind = PieceKind::Prologue;
    piece_breach(image, function, survey, Piece { at, next, kind })
}

fn pieces_breach(image: &Image, function: &Function, survey: &Survey) -> Option<Breach>
    requires { IsSurvey image.now function.now survey.now }
    ensures { IsFirstOf (PieceBreaks image.now function.now) result }
{
    let mut first = None;
    let mut at = prologue_end(image, function);
    while let Some(piece) = piece_at(image, function, at) {
        first = first_of(first, piece_breach(image, function, survey, piece));
        at = piece.next;
    }
    first
}
