//! The uses of a statement: its fields that wait for the value of a symbol.
ghost use Rattle.std.specs.Prelude.{◌≡◌, ◌+◌, ◌<◌, ◌≤◌, length, map, pos, ◌-ℤ◌, [], ◌∷◌, IsTrue, SomeIff};
ghost use Rattle.std.specs.Option.{option_map, option_to_list};
ghost use Rattle.std.specs.Int.{w64};
ghost use Rattle.cet_isa.specs.Canonical.{fits};
ghost use Rattle.cet_asm.specs.Emitted.{displacement_use as displacement_use_of, constant_use as constant_use_of, template_uses, resumption_use as resumption_use_of, part_emitted, parts_emitted, offset_use as offset_use_of, site_emitted, moved};
ghost use Rattle.cet_asm.specs.Placing.{IsSite, IsWritten, AddsUses, quad_uses, directive_uses, statement_uses};

use crate::error::AsmKind;
use crate::part::{Mark, Part};
use crate::parts::{PART_LIMIT, code_size, mark_place, part_size, parts};
use crate::placed::Spot;
use crate::sizes::{R_X86_64_32, R_X86_64_64, R_X86_64_PC32};
use crate::usage::{Use, constant_use, displacement_use};
use cet_syntax::{Code, Directive, Name, Quad, Site, Statement, Template};
use std::alloc::Global;

// The displacement of a memory operand.
fn push_displacement<'a>(
    out: &mut Vec<Use<'a>>,
    place: u64,
    template: &Template<'a>,
) -> Result<(), AsmKind>
    requires { place ≤ 1000 }
    ensures { AddsUses out.old.items out.new.items result (map (moved place) (option_to_list (option_map (displacement_use_of template.now.insn) template.now.memory))) }
{
    let Some(reference) = &template.memory else {
        return Ok(());
    };
    let size = code_size(template.insn);
    match displacement_use(template.insn, size, reference.copied()) {
        Some(field) => {
            out.push(field.moved(place))?;
            Ok(())
        }
        None => Err(AsmKind::Range),
    }
}

// The constant or the branch displacement.
fn push_constant<'a>(
    out: &mut Vec<Use<'a>>,
    place: u64,
    template: &Template<'a>,
) -> Result<(), AsmKind>
    requires { place ≤ 1000 }
    ensures { AddsUses out.old.items out.new.items result (map (moved place) (option_to_list (option_map (constant_use_of template.now.insn) template.now.immediate))) }
{
    let Some(reference) = &template.immediate else {
        return Ok(());
    };
    let size = code_size(template.insn);
    match constant_use(template.insn, size, reference.copied()) {
        Some(field) => {
            out.push(field.moved(place))?;
            Ok(())
        }
        None => Err(AsmKind::Range),
    }
}

fn push_template<'a>(
    out: &mut Vec<Use<'a>>,
    place: u64,
    template: &Template<'a>,
) -> Result<(), AsmKind>
    requires { place ≤ 1000 }
    ensures { AddsUses out.old.items out.new.items result (map (moved place) (template_uses template.now)) }
{
    push_displacement(out, place, template)?;
    push_constant(out, place, template)?;
    Ok(())
}

// How far `to` and `more` are from `from`. None where that does not have 64 bits.
fn distance(to: u64, more: u64, from: u64) -> Option<i64>
    requires { more ≤ 1000 }
    ensures { SomeIff result (IsTrue (fits w64 (pos (to + more) -ℤ pos from))) (pos (to + more) -ℤ pos from) }
{
    let to = i128::from(to) + i128::from(more);
    i64::try_from(to - i128::from(from)).ok()
}

// R of a Switch is the symbol of the function around, with the distance from its start.
fn push_resumption<'a>(
    out: &mut Vec<Use<'a>>,
    place: u64,
    spot: &Spot<'a>,
    resumed: u64,
) -> Result<(), AsmKind>
    requires near { place ≤ 1000 }
    requires short { resumed ≤ 1000 }
    ensures { AddsUses out.old.items out.new.items result (map (moved place) (resumption_use_of spot.now.around (spot.now.offset + resumed))) }
{
    let Some(around) = &spot.around else {
        return Ok(());
    };
    match distance(spot.offset, resumed, around.start) {
        Some(addend) => {
            out.push(Use {
                offset: place + 1,
                size: 4,
                kind: R_X86_64_32,
                name: around.name.copied(),
                addend,
            })?;
            Ok(())
        }
        None => Err(AsmKind::Range),
    }
}

fn push_part<'a>(
    out: &mut Vec<Use<'a>>,
    parts: &[Part<'a>],
    spot: &Spot<'a>,
    place: u64,
    part: &Part<'a>,
) -> Result<(), AsmKind>
    requires few { length parts.now ≤ PART_LIMIT }
    requires near { place ≤ 1000 }
    ensures { AddsUses out.old.items out.new.items result (map (moved place) (part_emitted parts.now spot.now place part.now).uses) }
{
    match part {
        Part::Whole(template) => push_template(out, place, template),
        Part::Resumption => push_resumption(out, place, spot, mark_place(Mark::Resumed, parts)),
        _ => Ok(()),
    }
}

fn push_parts<'a>(
    out: &mut Vec<Use<'a>>,
    parts: &[Part<'a>],
    spot: &Spot<'a>,
) -> Result<(), AsmKind>
    requires { length parts.now ≤ PART_LIMIT }
    ensures { AddsUses out.old.items out.new.items result (parts_emitted parts.now spot.now 0 parts.now).uses }
{
    let mut place = 0;
    for part in parts {
        push_part(out, parts, spot, place, part)?;
        place += part_size(part);
    }
    Ok(())
}

// A word that holds the value of a symbol.
fn push_quad<'a>(out: &mut Vec<Use<'a>>, quad: &Quad<'a>) -> Result<(), AsmKind>
    ensures { AddsUses out.old.items out.new.items result (quad_uses quad.now) }
{
    if let Quad::Symbol(name) = quad {
        out.push(Use {
            offset: 0,
            size: 8,
            kind: R_X86_64_64,
            name: name.copied(),
            addend: 0,
        })?;
    }
    Ok(())
}

// `.off`: the distance of a symbol from a label that stands at `table`.
fn push_offset<'a>(
    out: &mut Vec<Use<'a>>,
    offset: u64,
    table: u64,
    name: &Name<'a>,
) -> Result<(), AsmKind>
    ensures { AddsUses out.old.items out.new.items result (offset_use_of offset table name.now ∷ []) }
{
    match distance(offset, 0, table) {
        Some(addend) => {
            out.push(Use {
                offset: 0,
                size: 4,
                kind: R_X86_64_PC32,
                name: name.copied(),
                addend,
            })?;
            Ok(())
        }
        None => Err(AsmKind::Range),
    }
}

fn push_directive<'a>(
    out: &mut Vec<Use<'a>>,
    table: u64,
    spot: &Spot<'a>,
    directive: &Directive<'a>,
) -> Result<(), AsmKind>
    ensures { AddsUses out.old.items out.new.items result (directive_uses table spot.now directive.now) }
{
    match directive {
        Directive::Word(quad) => push_quad(out, quad),
        Directive::Off { name, .. } => push_offset(out, spot.offset, table, name),
        _ => Ok(()),
    }
}

fn push_site<'a>(
    alloc: Global,
    out: &mut Vec<Use<'a>>,
    spot: &Spot<'a>,
    site: &Site<'a>,
) -> Result<(), AsmKind>
    requires { IsSite site.now }
    ensures { AddsUses out.old.items out.new.items result (site_emitted spot.now site.now).uses }
{
    let parts = parts(alloc, site)?;
    push_parts(out, &parts, spot)
}

fn push_long<'a>(out: &mut Vec<Use<'a>>, template: &Template<'a>) -> Result<(), AsmKind>
    ensures { AddsUses out.old.items out.new.items result (template_uses template.now) }
{
    push_template(out, 0, template)
}

/// Adds the uses of a statement that stands at the spot. `table` is the place of the label that `.off` counts from. Range exactly where
/// an addend does not have 64 bits.
pub(crate) fn push_uses<'a>(
    alloc: Global,
    out: &mut Vec<Use<'a>>,
    table: u64,
    spot: &Spot<'a>,
    statement: &Statement<'a>,
) -> Result<(), AsmKind>
    requires { IsWritten statement.now }
    ensures { AddsUses out.old.items out.new.items result (statement_uses table spot.now statement.now) }
{
    match statement {
        Statement::Code(Code::Long(template)) => push_long(out, template),
        Statement::Code(Code::Short(..)) => Ok(()),
        Statement::Directive(directive) => push_directive(out, table, spot, directive),
        Statement::Site(site) => push_site(alloc, out, spot, site),
    }
}
