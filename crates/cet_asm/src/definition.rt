//! The symbols that statements define.
ghost use Rattle.std.specs.Prelude.{◌≡◌, IfOk, OnOk, ◌++◌, ◌+◌};
ghost use Rattle.std.specs.Option.{option_to_list};
ghost use Rattle.cet_asm.specs.Emitted.{padding as padding_of};
ghost use Rattle.cet_asm.specs.Assembled.{definitions as definitions_of, ends_function as ends};
ghost use Rattle.cet_asm.specs.Whole.{defined_at, defines_at, end_from as end_from_of};

use crate::extent::padding;
use crate::placed::{Placed, Spot, Step};
use cet_base::NoMemory;
use cet_elf::SymbolKind;
use cet_syntax::{Directive, Name, SectionName, Statement};
use std::alloc::Global;

/// A symbol that a statement defines.
#[derive(Drop)]
pub struct Definition<'a> {
    pub name: Name<'a>,
    pub kind: SymbolKind,
    pub section: SectionName,
    /// Its offset in the section.
    pub value: u64,
    /// In bytes.
    pub size: u64,
}

// The place of an object, which is a multiple of 8.
fn aligned(offset: u64) -> Result<u64, NoMemory>
    ensures { IfOk result (λ place. place ≡ offset + padding_of 8 offset) }
{
    offset.checked_add(padding(8, offset)).ok_or(NoMemory)
}

// What a directive defines, where the next `.end` stands at `end`.
fn defined_by_directive<'a>(
    spot: &Spot<'a>,
    directive: &Directive<'a>,
    end: Option<u64>,
) -> Result<Option<Definition<'a>>, NoMemory>
    ensures { IfOk result (λ defined. option_to_list defined ≡ defines_at spot.now directive.now end) }
{
    match directive {
        Directive::Func(name) => Ok(Some(Definition {
            name: name.copied(),
            kind: SymbolKind::Func,
            section: spot.section,
            value: spot.offset,
            size: end.unwrap_or(0).saturating_sub(spot.offset),
        })),
        Directive::Object(name, size) => Ok(Some(Definition {
            name: name.copied(),
            kind: SymbolKind::Object,
            section: spot.section,
            value: aligned(spot.offset)?,
            size: *size,
        })),
        _ => Ok(None),
    }
}

// What a statement defines, where the next `.end` stands at `end`.
fn defined<'a>(p: &Placed<'a>, end: Option<u64>) -> Result<Option<Definition<'a>>, NoMemory>
    ensures { IfOk result (λ defined. option_to_list defined ≡ defined_at p.now end) }
{
    match &p.step {
        Step::Label(name) => Ok(Some(Definition {
            name: name.copied(),
            kind: SymbolKind::None,
            section: p.spot.section,
            value: p.spot.offset,
            size: 0,
        })),
        Step::States(Statement::Directive(directive)) => {
            defined_by_directive(&p.spot, directive, end)
        }
        Step::States(_) => Ok(None),
    }
}

fn ends_function(step: &Step<'_>) -> bool
    ensures { result ≡ ends step.now }
{
    matches!(step, Step::States(Statement::Directive(Directive::End)))
}

/// Where the first `.end` stands, among a statement and those behind it.
pub(crate) fn end_from(p: &Placed<'_>, end: Option<u64>) -> Option<u64>
    ensures { result ≡ end_from_of p.now end }
{
    if ends_function(&p.step) {
        Some(p.spot.offset)
    } else {
        end
    }
}

// Adds the definition, where there is one.
fn push<'a>(
    found: &mut Vec<Definition<'a>>,
    defined: Option<Definition<'a>>,
) -> Result<(), NoMemory>
    ensures { OnOk result (found.new.items ≡ found.old.items ++ option_to_list defined.entry) }
{
    if let Some(defined) = defined {
        found.push(defined)?;
    }
    Ok(())
}

/// What the statements define, in their order. It takes time that grows with their number.
pub(crate) fn definitions<'a>(
    alloc: Global,
    placed: &[Placed<'a>],
) -> Result<Vec<Definition<'a>>, NoMemory>
    ensures { IfOk result (λ found. found.items ≡ definitions_of placed.now) }
{
    let mut found = Vec::new(alloc);
    let mut end = None;
    let mut n = placed.len();
    while n > 0 {
        n -= 1;
        let p = &placed[n];
        push(&mut found, defined(p, end)?)?;
        end = end_from(p, end);
    }
    found.reverse();
    Ok(found)
}
