//! Small objects for tests, made of tables, and the test that they are what a link asks of its inputs.

ghost use Rattle.std.specs.Prelude.{◌≡◌, ◌≤◌, ◌<◌, IsTrue, All, length, sum_by};
ghost use Rattle.cet_elf.specs.Consistent.{HasNoZero, IsAlignment, HasItsBytes, IsConsistentRela, IsConsistentSection, IsConsistentSymbol, IsPlaceAmong, IsConsistent};

use cet_base::{Bytes, NoMemory, Text};
use cet_elf::{
    Bind, Class, Object, Rela, RelaList, Section, SectionList, Symbol, SymbolKind, SymbolList,
    SymbolPlace,
};
use std::alloc::Global;

/// A section. One that is not of zeros has zeros as its bytes.
pub(crate) struct SectionRow {
    pub(crate) class: Class,
    pub(crate) align: u64,
    pub(crate) size: u64,
    pub(crate) relocations: &'static [Rela],
}

/// A symbol: its name, its kind, its binding, its place and its value.
pub(crate) type SymbolRow = (&'static [u8], SymbolKind, Bind, SymbolPlace, u64);

/// An object.
pub(crate) struct Sample {
    pub(crate) sections: &'static [SectionRow],
    pub(crate) symbols: &'static [SymbolRow],
    pub(crate) note: Option<&'static [u8]>,
}

fn relocations_of(alloc: Global, rows: &[Rela]) -> Result<RelaList, NoMemory> {
    let mut relocations = RelaList::new(alloc);
    for rela in rows {
        relocations.push(*rela)?;
    }
    Ok(relocations)
}

pub(crate) fn zeros(alloc: Global, size: u64) -> Result<Bytes, NoMemory> {
    let mut bytes = Bytes::new(alloc);
    for _ in 0..size {
        bytes.push(0)?;
    }
    Ok(bytes)
}

fn section_of(alloc: Global, row: &SectionRow) -> Result<Section, NoMemory> {
    let stored = match row.class {
        Class::Zero => 0,
        _ => row.size,
    };
    Ok(Section {
        name: Text::from_slice(alloc, b".s")?,
        class: row.class,
        align: row.align,
        size: row.size,
        bytes: zeros(alloc, stored)?,
        relocations: relocations_of(alloc, row.relocations)?,
    })
}

fn symbol_of(alloc: Global, row: &SymbolRow) -> Result<Symbol, NoMemory> {
    Ok(Symbol {
        name: Text::from_slice(alloc, row.0)?,
        kind: row.1,
        bind: row.2,
        place: row.3,
        value: row.4,
        size: 0,
    })
}

fn sections_of(alloc: Global, rows: &[SectionRow]) -> Result<SectionList, NoMemory> {
    let mut sections = SectionList::new(alloc);
    for row in rows {
        sections.push(section_of(alloc, row)?)?;
    }
    Ok(sections)
}

fn symbols_of(alloc: Global, rows: &[SymbolRow]) -> Result<SymbolList, NoMemory> {
    let mut symbols = SymbolList::new(alloc);
    for row in rows {
        symbols.push(symbol_of(alloc, row)?)?;
    }
    Ok(symbols)
}

fn object_of(alloc: Global, sample: &Sample) -> Result<Object, NoMemory> {
    let notes = match sample.note {
        Some(note) => Some(Bytes::from_slice(alloc, note)?),
        None => None,
    };
    Ok(Object {
        sections: sections_of(alloc, sample.sections)?,
        symbols: symbols_of(alloc, sample.symbols)?,
        notes,
    })
}

/// The objects of these tables.
pub(crate) fn objects_of(alloc: Global, samples: &[Sample]) -> Result<Vec<Object>, NoMemory> {
    let mut objects = Vec::new(alloc);
    for sample in samples {
        objects.push(object_of(alloc, sample)?)?;
    }
    Ok(objects)
}

fn has_no_zero(name: &[u8]) -> bool
    ensures { IsTrue result → HasNoZero name.now }
{
    !name.contains(&0)
}

// The alignments of the tables.
fn is_alignment(align: u64) -> bool
    ensures { IsTrue result → IsAlignment align }
{
    match align {
        1 => true,
        16 => true,
        4096 => true,
        _ => false,
    }
}

fn has_its_bytes(section: &Section) -> bool
    ensures { IsTrue result → HasItsBytes section.now.class section.now.size section.now.bytes }
{
    match section.class {
        Class::Zero => section.bytes.is_empty(),
        _ => section.bytes.len() as u64 == section.size,
    }
}

fn is_consistent_rela(symbols: usize, size: usize, rela: &Rela) -> bool
    ensures { IsTrue result → IsConsistentRela symbols size rela.now }
{
    let width = match rela.kind {
        0 => return (rela.symbol as usize) < symbols,
        1 | 24 => 8,
        2 | 4 | 10 | 11 => 4,
        _ => return false,
    };
    (rela.symbol as usize) < symbols
        && rela.offset <= size as u64
        && size as u64 - rela.offset >= width
}

fn are_consistent_relas(symbols: usize, size: usize, relocations: &[Rela]) -> bool
    ensures { IsTrue result → All (IsConsistentRela symbols size) relocations.now }
{
    for rela in relocations {
        if !is_consistent_rela(symbols, size, rela) {
            return false;
        }
    }
    true
}

fn is_consistent_section(symbols: usize, section: &Section) -> bool
    ensures { IsTrue result → IsConsistentSection symbols section.now }
{
    let relocations = section.relocations.as_slice();
    is_alignment(section.align)
        && has_its_bytes(section)
        && are_consistent_relas(symbols, section.bytes.len(), relocations)
}

fn are_consistent_sections(symbols: usize, sections: &[Section]) -> bool
    ensures { IsTrue result → All (IsConsistentSection symbols) sections.now }
{
    for section in sections {
        if !is_consistent_section(symbols, section) {
            return false;
        }
    }
    true
}

fn is_place_among(sections: usize, place: SymbolPlace) -> bool
    ensures { IsTrue result → IsPlaceAmong sections place }
{
    match place {
        SymbolPlace::In(number) => (number as usize) < sections,
        SymbolPlace::Undefined | SymbolPlace::Absolute | SymbolPlace::Common => true,
    }
}

fn is_consistent_symbol(sections: usize, symbol: &Symbol) -> bool
    ensures { IsTrue result → IsConsistentSymbol sections symbol.now }
{
    has_no_zero(symbol.name.as_slice()) && is_place_among(sections, symbol.place)
}

fn are_consistent_symbols(sections: usize, symbols: &[Symbol]) -> bool
    ensures { IsTrue result → All (IsConsistentSymbol sections) symbols.now }
{
    for symbol in symbols {
        if !is_consistent_symbol(sections, symbol) {
            return false;
        }
    }
    true
}

fn has_few_relocations(sections: &[Section]) -> bool
    ensures { IsTrue result → sum_by (λ s. length s.relocations) sections.now ≤ 1000000 }
{
    let mut sum = 0;
    for section in sections {
        if section.relocations.len() > 1000 || sum > 100_000 {
            return false;
        }
        sum += section.relocations.len();
    }
    sum <= 1_000_000
}

fn is_consistent(object: &Object) -> bool
    ensures { IsTrue result → IsConsistent object.now }
{
    let sections = object.sections.as_slice();
    let symbols = object.symbols.as_slice();
    sections.len() <= 4096
        && symbols.len() <= 65_536
        && has_few_relocations(sections)
        && are_consistent_sections(symbols.len(), sections)
        && are_consistent_symbols(sections.len(), symbols)
}

/// Whether small objects are what a link asks of its inputs.
pub(crate) fn are_consistent(objects: &[Object]) -> bool
    ensures { IsTrue result → All IsConsistent objects.now }
{
    for object in objects {
        if !is_consistent(object) {
            return false;
        }
    }
    true
}
