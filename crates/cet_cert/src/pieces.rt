//! How a function is cut into pieces.
ghost use Rattle.std.specs.Prelude.{◌≡◌, ◌<◌, ◌≤◌, IfSome};
ghost use Rattle.cet_rules.specs.Image.{end_of};
ghost use Rattle.cet_rules.specs.Piece.{prologue_end, piece_at};

use crate::fetch::instruction_at;
use cet_rules::{Covered, Function, Image, Piece, PieceKind};

/// The end of the function's prologue: the address after an ENDBR64 at its start, or the start where there is none.
pub fn prologue_end(image: &Image, function: &Function) -> u64
    ensures value { result ≡ prologue_end image.now function.now }
    ensures within { (function.now.start ≤ result) × (result ≤ end_of function.now) }
{
    match instruction_at(image, function, function.start) {
        Some((Covered::EndBr64, length)) => function.start + u64::from(length),
        _ => function.start,
    }
}

/// The piece other than the prologue that stands at `at`, or none where no covered instruction stands there.
pub fn piece_at(image: &Image, function: &Function, at: u64) -> Option<Piece>
    ensures value { result ≡ piece_at image.now function.now at }
    ensures within { IfSome result (λ p. (p.at ≡ at) × (at < p.next) × (p.next ≤ end_of function.now)) }
{
    let (instruction, length) = instruction_at(image, function, at)?;
    let next = at + u64::from(length);
    let alone = Piece {
        at,
        next,
        kind: PieceKind::Single(instruction),
    };
    let Covered::MovEax { imm } = instruction else {
        return Some(alone);
    };
    match instruction_at(image, function, next) {
        Some((Covered::JmpRax, length)) => Some(Piece {
            at,
            next: next + u64::from(length),
            kind: PieceKind::ConstJump {
                entry: imm,
                branch: next,
            },
        }),
        _ => Some(alone),
    }
}
