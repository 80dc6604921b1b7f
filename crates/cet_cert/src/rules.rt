//! Which rule a piece breaks.
ghost use Rattle.std.specs.Prelude.{◌≡◌, ◌↔◌, IsTrue};
ghost use Rattle.cet_rules.specs.Image.{end_of, LiesIn};
ghost use Rattle.cet_rules.specs.Piece.{IsPieceStart, target};
ghost use Rattle.cet_rules.specs.Rule.{HasNoForm, IsLanding};
ghost use Rattle.cet_cert.specs.Breach.{IsFirstOf, Breaks, JumpsOut};
ghost use Rattle.cet_cert.specs.Survey.{IsSurvey};

use crate::breach::Breach;
use crate::survey::{Mark, Survey, mark_at};
use cet_rules::{Covered, Function, Image, Piece, PieceKind};

/// The rule that the piece breaks, and where.
pub fn piece_breach(
    image: &Image,
    function: &Function,
    survey: &Survey,
    piece: Piece,
) -> Option<Breach>
    requires { IsSurvey image.now function.now survey.now }
    ensures { IsFirstOf (Breaks image.now function.now piece) result }
{
    let at = piece.at;
    match piece.kind {
        PieceKind::Single(Covered::Jmp { rel }) => {
            let to = target(piece.next, rel);
            let wrong = lies_in(to, function) && !is_start(image, function, survey, to);
            wrong.then_some(Breach { rule: 8, at })
        }
        PieceKind::Single(Covered::JmpRax) => Some(Breach { rule: 19, at }),
        PieceKind::Single(Covered::Ud2) => None,
        PieceKind::ConstJump { entry, branch } => {
            let wrong = !is_landing(image, function, survey, entry);
            wrong.then_some(Breach {
                rule: 18,
                at: branch,
            })
        }
        PieceKind::Prologue
        | PieceKind::Single(Covered::EndBr64 | Covered::Nop | Covered::MovEax { .. }) => {
            ends(function, piece.next).then_some(Breach { rule: 11, at })
        }
    }
}

/// Whether the piece is a JMP to outside of the function.
pub fn jumps_out(function: &Function, piece: Piece) -> bool
    ensures { IsTrue result ↔ JumpsOut function.now piece }
{
    match piece.kind {
        PieceKind::Single(Covered::Jmp { rel }) => !lies_in(target(piece.next, rel), function),
        _ => false,
    }
}

// Where a relative branch goes: the sum is modulo 2^64 (SDM volume 2, JMP).
fn target(next: u64, rel: i8) -> u64
    ensures { result ≡ target next rel }
{
    next.wrapping_add_signed(i64::from(rel))
}

fn lies_in(at: u64, function: &Function) -> bool
    ensures { IsTrue result ↔ LiesIn at function.now }
{
    function.start <= at && at - function.start < function.size
}

fn ends(function: &Function, at: u64) -> bool
    ensures { IsTrue result ↔ (at ≡ end_of function.now) }
{
    function.start <= at && at - function.start == function.size
}

fn is_start(image: &Image, function: &Function, survey: &Survey, at: u64) -> bool
    requires { IsSurvey image.now function.now survey.now }
    ensures { IsTrue result ↔ IsPieceStart image.now function.now at }
{
    match mark_at(image, function, survey, at) {
        Mark::Inside => false,
        Mark::Start | Mark::Landing => true,
    }
}

fn is_landing(image: &Image, function: &Function, survey: &Survey, at: u64) -> bool
    requires { IsSurvey image.now function.now survey.now }
    ensures { IsTrue result ↔ IsLanding image.now function.now at }
{
    match mark_at(image, function, survey, at) {
        Mark::Landing => true,
        Mark::Inside | Mark::Start => false,
    }
}
