//! The sections of an object.
ghost use Rattle.std.specs.Prelude.{◌≡◌, [], ◌∷◌, ◌++◌, IfOk, OnOk, map};
ghost use Rattle.cet_asm.specs.Emitted.{moved};
ghost use Rattle.cet_asm.specs.Assembled.{section_text, section_class as section_class_of, step_bytes};
ghost use Rattle.cet_asm.specs.Whole.{relocation_by, relocations_by, number_by, bytes_by, section_by, bytes_of, relocations_of};
ghost use Rattle.cet_asm.specs.Placing.{IsTable};
ghost use Rattle.cet_asm.specs.Tables.{number_at, targets_at};

use crate::bounds::is_written;
use crate::cursor::same_section;
use crate::names_used::{sum, uses};
use crate::placed::{Placed, Step};
use crate::statement::append_statement;
use crate::table::Table;
use crate::targets::Targets;
use crate::usage::Use;
use cet_base::{Bytes, Items, NoMemory, Text};
use cet_elf::{Class, Rela, RelaList, Section};
use cet_syntax::{Directive, SectionName, Statement};
use std::alloc::Global;

// Adds the bytes of a statement.
fn append_step<'a>(
    alloc: Global,
    out: &mut Bytes,
    targets: &Targets<'a>,
    p: &Placed<'a>,
) -> Result<(), NoMemory>
    ensures { OnOk result (out.new ≡ out.old ++ step_bytes (targets_at targets.now) p.now) }
{
    match &p.step {
        Step::Label(_) => Ok(()),
        Step::States(statement) => {
            if !is_written(statement) {
                return Err(NoMemory);
            }
            append_statement(alloc, out, targets, &p.spot, statement)
        }
    }
}

// Adds the bytes of a statement in a section.
fn append_within<'a>(
    alloc: Global,
    out: &mut Bytes,
    section: SectionName,
    targets: &Targets<'a>,
    p: &Placed<'a>,
) -> Result<(), NoMemory>
    ensures { OnOk result (out.new ≡ out.old ++ bytes_of (targets_at targets.now) section (p.now ∷ [])) }
{
    if same_section(p.spot.section, section) {
        return append_step(alloc, out, targets, p);
    }
    Ok(())
}

// The bytes of a section that stores them.
fn stored_bytes<'a>(
    alloc: Global,
    section: SectionName,
    targets: &Targets<'a>,
    placed: &[Placed<'a>],
) -> Result<Bytes, NoMemory>
    ensures { IfOk result (λ bytes. bytes ≡ bytes_of (targets_at targets.now) section placed.now) }
{
    let mut bytes = Items::new(alloc);
    for p in placed {
        append_within(alloc, &mut bytes, section, targets, p)?;
    }
    Ok(bytes)
}

// The relocation of a field of a statement that stands at the offset.
fn relocation<'a>(numbers: &Table<'a>, offset: u64, field: &Use<'a>) -> Result<Rela, NoMemory>
    ensures { IfOk result (λ r. r ≡ relocation_by (number_by (number_at numbers.now)) (moved offset field.now)) }
{
    let number = numbers.get(field.name.as_bytes()).unwrap_or(0);
    let Ok(symbol) = u32::try_from(number) else {
        return Err(NoMemory);
    };
    Ok(Rela {
        offset: sum(offset, field.offset)?,
        kind: field.kind,
        symbol,
        addend: field.addend,
    })
}

// Adds the relocations of the fields of a statement that stands at the offset.
fn push_relocations<'a>(
    out: &mut RelaList,
    numbers: &Table<'a>,
    offset: u64,
    uses: &[Use<'a>],
) -> Result<(), NoMemory>
    ensures { OnOk result (out.new ≡ out.old ++ map (λ u. relocation_by (number_by (number_at numbers.now)) (moved offset u)) uses.now) }
{
    for field in uses {
        out.push(relocation(numbers, offset, field)?)?;
    }
    Ok(())
}

// The place of the label that `.off` counts from.
fn table_of<'a>(targets: &Targets<'a>, section: SectionName, statement: &Statement<'a>) -> u64
    ensures { IsTable (targets_at targets.now) section statement.now result }
{
    match statement {
        Statement::Directive(Directive::Off { table, .. }) => {
            targets.get(section, table.as_bytes()).unwrap_or(0)
        }
        _ => 0,
    }
}

// Adds the relocations of a statement.
fn push_step<'a>(
    alloc: Global,
    out: &mut RelaList,
    targets: &Targets<'a>,
    numbers: &Table<'a>,
    p: &Placed<'a>,
) -> Result<(), NoMemory>
    ensures { OnOk result (out.new ≡ out.old ++ relocations_by (number_by (number_at numbers.now)) (targets_at targets.now) p.now) }
{
    match &p.step {
        Step::Label(_) => Ok(()),
        Step::States(statement) => {
            let table = table_of(targets, p.spot.section, statement);
            let uses = uses(alloc, table, &p.spot, statement)?;
            push_relocations(out, numbers, p.spot.offset, &uses)
        }
    }
}

// Adds the relocations of a statement in a section.
fn push_within<'a>(
    alloc: Global,
    out: &mut RelaList,
    section: SectionName,
    targets: &Targets<'a>,
    numbers: &Table<'a>,
    p: &Placed<'a>,
) -> Result<(), NoMemory>
    ensures { OnOk result (out.new ≡ out.old ++ relocations_of (number_by (number_at numbers.now)) (targets_at targets.now) section (p.now ∷ [])) }
{
    if same_section(p.spot.section, section) {
        return push_step(alloc, out, targets, numbers, p);
    }
    Ok(())
}

// The relocations of a section, by offset.
fn relocations<'a>(
    alloc: Global,
    section: SectionName,
    targets: &Targets<'a>,
    numbers: &Table<'a>,
    placed: &[Placed<'a>],
) -> Result<RelaList, NoMemory>
    ensures { IfOk result (λ list. list ≡ relocations_of (number_by (number_at numbers.now)) (targets_at targets.now) section placed.now) }
{
    let mut list = Items::new(alloc);
    for p in placed {
        push_within(alloc, &mut list, section, targets, numbers, p)?;
    }
    Ok(list)
}

fn section_name(alloc: Global, section: SectionName) -> Result<Text, NoMemory>
    ensures { IfOk result (λ name. name ≡ section_text section) }
{
    match section {
        SectionName::Text => Items::from_slice(alloc, b".text"),
        SectionName::Rodata => Items::from_slice(alloc, b".rodata"),
        SectionName::Data => Items::from_slice(alloc, b".data"),
        SectionName::Bss => Items::from_slice(alloc, b".bss"),
    }
}

fn section_class(section: SectionName) -> Class
    ensures { result ≡ section_class_of section }
{
    match section {
        SectionName::Text => Class::Code,
        SectionName::Rodata => Class::Read,
        SectionName::Data => Class::Write,
        SectionName::Bss => Class::Zero,
    }
}

// The bytes of a section; .bss stores none.
fn section_bytes<'a>(
    alloc: Global,
    section: SectionName,
    targets: &Targets<'a>,
    placed: &[Placed<'a>],
) -> Result<Bytes, NoMemory>
    ensures { IfOk result (λ bytes. bytes ≡ bytes_by (targets_at targets.now) placed.now section) }
{
    match section {
        SectionName::Bss => Ok(Items::new(alloc)),
        _ => stored_bytes(alloc, section, targets, placed),
    }
}

/// A section of the object.
pub(crate) fn section<'a>(
    alloc: Global,
    name: SectionName,
    size: u64,
    targets: &Targets<'a>,
    numbers: &Table<'a>,
    placed: &[Placed<'a>],
) -> Result<Section, NoMemory>
    ensures { IfOk result (λ section. section ≡ section_by (number_by (number_at numbers.now)) (targets_at targets.now) placed.now name size) }
{
    Ok(Section {
        name: section_name(alloc, name)?,
        class: section_class(name),
        align: 16,
        size,
        bytes: section_bytes(alloc, name, targets, placed)?,
        relocations: relocations(alloc, name, targets, numbers, placed)?,
    })
}
