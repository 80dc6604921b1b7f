//! The names that statements use, and those that they make global.
ghost use Rattle.std.specs.Prelude.{◌≡◌, ◌++◌, ◌+◌, ◌||◌, ℕ, List, IfOk, OnOk, is_some, map};
ghost use Rattle.std.specs.List.{flat_map};
ghost use Rattle.cet_asm.specs.Assembled.{global_names, is_among, no_targets, used_names as used_names_of};
ghost use Rattle.cet_asm.specs.Whole.{made_global as made_global_by, used_by};
ghost use Rattle.cet_asm.specs.Emitted.{Targets as TargetsOf, emitted};
ghost use Rattle.cet_asm.specs.Placing.{IsTable};
ghost use Rattle.cet_asm.specs.Tables.{number_at};

use crate::bounds::is_written;
use crate::placed::{Placed, Spot, Step};
use crate::table::Table;
use crate::usage::Use;
use crate::uses::push_uses;
use cet_base::NoMemory;
use cet_syntax::{Code, Directive, Name, Statement};
use std::alloc::Global;

// Adds the name that a statement makes global.
fn add_global<'a>(table: &mut Table<'a>, step: &Step<'a>) -> Result<(), NoMemory>
    ensures { OnOk result ((name : List ℕ) → is_some (number_at table.new name) ≡ (is_some (number_at table.old name) || is_among name (made_global_by step.now))) }
{
    match step {
        Step::States(Statement::Directive(Directive::Global(name))) => {
            table.give(name.as_bytes(), 0)
        }
        _ => Ok(()),
    }
}

/// The names that statements make global.
pub(crate) fn globals<'a>(alloc: Global, placed: &[Placed<'a>]) -> Result<Table<'a>, NoMemory>
    ensures { IfOk result (λ table. (name : List ℕ) → is_some (number_at table name) ≡ is_among name (global_names placed.now)) }
{
    let mut table = Table::new(alloc);
    for p in placed {
        add_global(&mut table, &p.step)?;
    }
    Ok(table)
}

/// The sum, where it has 64 bits.
pub(crate) fn sum(a: u64, b: u64) -> Result<u64, NoMemory>
    ensures { IfOk result (λ sum. sum ≡ a + b) }
{
    a.checked_add(b).ok_or(NoMemory)
}

// Adds the names of fields.
fn push_names<'a>(used: &mut Vec<Name<'a>>, uses: &[Use<'a>]) -> Result<(), NoMemory>
    ensures { OnOk result (used.new.items ≡ used.old.items ++ map (λ u. u.name) uses.now) }
{
    for field in uses {
        used.push(field.name.copied())?;
    }
    Ok(())
}

/// The fields of a statement that wait, where `table` is the place of the label that `.off` counts from.
pub(crate) fn uses<'a>(
    alloc: Global,
    table: u64,
    spot: &Spot<'a>,
    statement: &Statement<'a>,
) -> Result<Vec<Use<'a>>, NoMemory>
    ensures { IfOk result (λ uses. (targets : TargetsOf) → IsTable targets spot.now.section statement.now table → uses.items ≡ (emitted targets spot.now statement.now).uses) }
{
    if !is_written(statement) {
        return Err(NoMemory);
    }
    let mut out = Vec::new(alloc);
    match push_uses(alloc, &mut out, table, spot, statement) {
        Ok(()) => Ok(out),
        Err(_) => Err(NoMemory),
    }
}

// Adds the names of the fields of a statement.
fn push_fields<'a>(
    alloc: Global,
    used: &mut Vec<Name<'a>>,
    spot: &Spot<'a>,
    statement: &Statement<'a>,
) -> Result<(), NoMemory>
    ensures { OnOk result (used.new.items ≡ used.old.items ++ map (λ u. u.name) (emitted no_targets spot.now statement.now).uses) }
{
    push_names(used, &uses(alloc, 0, spot, statement)?)
}

// Adds the names that a statement uses.
fn push_used_by<'a>(
    alloc: Global,
    used: &mut Vec<Name<'a>>,
    spot: &Spot<'a>,
    statement: &Statement<'a>,
) -> Result<(), NoMemory>
    ensures { OnOk result (used.new.items ≡ used.old.items ++ used_by spot.now statement.now) }
{
    match statement {
        Statement::Code(Code::Short(_, name)) => {
            used.push(name.copied())?;
            Ok(())
        }
        Statement::Code(Code::Long(_)) => push_fields(alloc, used, spot, statement),
        Statement::Directive(_) => push_fields(alloc, used, spot, statement),
        Statement::Site(_) => push_fields(alloc, used, spot, statement),
    }
}

// Adds the names that a statement in its place uses.
fn push_used<'a>(alloc: Global, used: &mut Vec<Name<'a>>, p: &Placed<'a>) -> Result<(), NoMemory>
    ensures { OnOk result (used.new.items ≡ used.old.items ++ used_names_of p.now) }
{
    match &p.step {
        Step::Label(_) => Ok(()),
        Step::States(statement) => push_used_by(alloc, used, &p.spot, statement),
    }
}

/// The names that statements use, in their order, each as often as it is used.
pub(crate) fn used_names<'a>(
    alloc: Global,
    placed: &[Placed<'a>],
) -> Result<Vec<Name<'a>>, NoMemory>
    ensures { IfOk result (λ used. used.items ≡ flat_map used_names_of placed.now) }
{
    let mut used = Vec::new(alloc);
    for p in placed {
        push_used(alloc, &mut used, p)?;
    }
    Ok(used)
}
