//! The faults that show when the whole text is known.
ghost use Rattle.std.specs.Prelude.{◌≡◌};
ghost use Rattle.std.specs.Option.{option_map, option_or};
ghost use Rattle.cet_asm.specs.Assembled.{short_fault as short_fault_of, first_late as first_late_of};
ghost use Rattle.cet_asm.specs.Whole.{late_at};
ghost use Rattle.cet_asm.specs.Tables.{targets_at};

use crate::definition::end_from;
use crate::error::{AsmError, AsmKind};
use crate::placed::{Placed, Spot, Step};
use crate::targets::Targets;
use cet_syntax::{Code, Directive, Name, Statement};

// A short branch goes to a name of its section that is in reach.
fn short_fault<'a>(targets: &Targets<'a>, spot: &Spot<'a>, name: &Name<'a>) -> Option<AsmKind>
    ensures { result ≡ short_fault_of (targets_at targets.now) spot.now name.now }
{
    let Some(target) = targets.get(spot.section, name.as_bytes()) else {
        return Some(AsmKind::Label);
    };
    let distance = i128::from(target) - (i128::from(spot.offset) + 2);
    match i8::try_from(distance) {
        Ok(_) => None,
        Err(_) => Some(AsmKind::Range),
    }
}

// What is wrong with a statement, where the next `.end` stands at `end`.
fn late_fault<'a>(targets: &Targets<'a>, p: &Placed<'a>, end: Option<u64>) -> Option<AsmKind>
    ensures { result ≡ late_at (targets_at targets.now) p.now end }
{
    match &p.step {
        Step::States(Statement::Code(Code::Short(_, name))) => short_fault(targets, &p.spot, name),
        Step::States(Statement::Directive(Directive::Func(_))) if end.is_none() => {
            Some(AsmKind::Word)
        }
        _ => None,
    }
}

// The fault of a statement, else that of those behind it.
fn or_behind(line: u32, kind: Option<AsmKind>, behind: Option<AsmError>) -> Option<AsmError>
    ensures { result ≡ option_or (option_map (λ kind. record { line = line; kind = kind }) kind) behind }
{
    match kind {
        Some(kind) => Some(AsmError { line, kind }),
        None => behind,
    }
}

/// The first fault in the order of lines. It takes time that grows with the number of statements.
pub(crate) fn first_late<'a>(targets: &Targets<'a>, placed: &[Placed<'a>]) -> Option<AsmError>
    ensures { result ≡ first_late_of (targets_at targets.now) placed.now }
{
    let mut fault = None;
    let mut end = None;
    let mut n = placed.len();
    while n > 0 {
        n -= 1;
        let p = &placed[n];
        fault = or_behind(p.line, late_fault(targets, p, end), fault);
        end = end_from(p, end);
    }
    fault
}
