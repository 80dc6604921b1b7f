//! The bytes that statements put into their section.
ghost use Rattle.std.specs.Prelude.{◌≡◌, ◌+◌, ◌++◌, IfOk, OnOk, unwrap_or};
ghost use Rattle.cet_syntax.specs.Instruction.{short_branch as short_branch_of};
ghost use Rattle.cet_asm.specs.Emitted.{code_of, short_distance, directive_emitted, emitted};
ghost use Rattle.cet_asm.specs.Placing.{IsWritten};
ghost use Rattle.cet_asm.specs.Tables.{targets_at};
ghost use Rattle.cet_asm.specs.Emitted.{Targets as TargetsOf};
ghost use Rattle.cet_asm.specs.declared.placed.Spot.{Spot as SpotOf};
ghost use Rattle.cet_syntax.specs.declared.statement.Statement.TheVariants as statement;

use crate::bytes::{append, append_template, append_zeros, code};
use crate::extent::padding;
use crate::placed::Spot;
use crate::site::{append_site, distance};
use crate::targets::Targets;
use cet_base::{Bytes, NoMemory};
use cet_encode::Code;
use cet_isa::{Cond, Insn, Rel};
use cet_syntax::{Code as Instruction, Directive, Name, Quad, Statement};
use std::alloc::Global;

fn short_branch(cond: Option<Cond>, rel: i8) -> Insn
    ensures { result ≡ short_branch_of cond rel }
{
    match cond {
        None => Insn::Jmp { rel: Rel::S(rel) },
        Some(cond) => Insn::Jcc {
            cond,
            rel: Rel::S(rel),
        },
    }
}

// A short branch that stands at the offset.
fn short_code(cond: Option<Cond>, offset: u64, target: u64) -> Result<Code, NoMemory>
    ensures { IfOk result (λ code. code ≡ code_of (short_branch_of cond (short_distance offset target))) }
{
    let Some(end) = offset.checked_add(2) else {
        return Err(NoMemory);
    };
    match i8::try_from(distance(target, end)?) {
        Ok(rel) => code(short_branch(cond, rel)),
        Err(_) => Err(NoMemory),
    }
}

fn append_directive(out: &mut Bytes, offset: u64, directive: &Directive<'_>) -> Result<(), NoMemory>
    requires { IsWritten (statement.Directive directive.now) }
    ensures { OnOk result ((targets : TargetsOf) (spot : SpotOf) → spot.offset ≡ offset → out.new ≡ out.old ++ (directive_emitted targets spot directive.now).bytes) }
{
    match directive {
        Directive::Object(_, size) => {
            append_zeros(out, padding(8, offset))?;
            append_zeros(out, *size)
        }
        Directive::Word(Quad::Number(number)) => append(out, &number.to_le_bytes()),
        Directive::Word(Quad::Symbol(_)) => append_zeros(out, 8),
        Directive::Byte(byte) => append(out, &[*byte]),
        Directive::Zero(size) => append_zeros(out, *size),
        Directive::Align(boundary) => append_zeros(out, padding(*boundary, offset)),
        Directive::Off { .. } => append_zeros(out, 4),
        _ => Ok(()),
    }
}

// The place of a name in the section of a statement, or 0.
fn target<'a>(targets: &Targets<'a>, spot: &Spot<'a>, name: &Name<'a>) -> u64
    ensures { result ≡ unwrap_or (targets_at targets.now spot.now.section name.now) 0 }
{
    targets.get(spot.section, name.as_bytes()).unwrap_or(0)
}

// A short branch to a name of the section.
fn append_short<'a>(
    out: &mut Bytes,
    targets: &Targets<'a>,
    spot: &Spot<'a>,
    cond: Option<Cond>,
    name: &Name<'a>,
) -> Result<(), NoMemory>
    ensures { OnOk result (out.new ≡ out.old ++ code_of (short_branch_of cond (short_distance spot.now.offset (unwrap_or (targets_at targets.now spot.now.section name.now) 0)))) }
{
    let code = short_code(cond, spot.offset, target(targets, spot, name))?;
    append(out, code.as_bytes())
}

/// Adds what a statement emits.
pub(crate) fn append_statement<'a>(
    alloc: Global,
    out: &mut Bytes,
    targets: &Targets<'a>,
    spot: &Spot<'a>,
    statement: &Statement<'a>,
) -> Result<(), NoMemory>
    requires { IsWritten statement.now }
    ensures { OnOk result (out.new ≡ out.old ++ (emitted (targets_at targets.now) spot.now statement.now).bytes) }
{
    match statement {
        Statement::Code(Instruction::Long(template)) => append_template(out, template),
        Statement::Code(Instruction::Short(cond, name)) => {
            append_short(out, targets, spot, *cond, name)
        }
        Statement::Directive(directive) => append_directive(out, spot.offset, directive),
        Statement::Site(site) => append_site(alloc, out, spot, site),
    }
}
