//! Whether an object can be written so that it reads back.
ghost use Rattle.std.specs.Prelude.{◌≡◌, ◌+◌, ◌<◌, ◌≤◌, ◌^◌, All, IsTrue, IfOk, IfSome, Some, slice_get, ◌≢◌, length, sum_by};
ghost use Rattle.cet_elf.specs.Consistent.{HasNoZero, IsConsistentRela, HasItsBytes, IsConsistentSymbol, IsPlaceAmong};
ghost use Rattle.cet_elf.specs.ObjectRelocations.{is_rela_type as is_rela_type_of, field_size as field_size_of, is_field_inside as is_field_inside_of};
ghost use Rattle.cet_elf.specs.ObjectSymbols.{null_symbol};
ghost use Rattle.cet_elf.specs.Regular.{IsRegular};
ghost use Rattle.cet_asm.specs.Sound.{IsSoundSection};
ghost use Rattle.cet_elf.specs.declared.object.Class.TheVariants as classes;

use cet_elf::{Bind, Class, Object, Rela, Section, Symbol, SymbolKind, SymbolPlace};

/// The most symbols of an object.
const SYMBOL_LIMIT: usize = 65_536;

/// The most relocations of an object.
const RELOCATION_LIMIT: u64 = 1_000_000;

/// The names of an object have fewer bytes together.
const NAME_BYTES_LIMIT: u64 = 1 << 30;

fn has_no_zero(text: &[u8]) -> bool
    ensures { IsTrue result → HasNoZero text.now }
{
    !text.contains(&0)
}

fn is_rela_type(kind: u32) -> bool
    ensures { result ≡ is_rela_type_of kind }
{
    matches!(kind, 0 | 1 | 2 | 4 | 10 | 11 | 24)
}

fn field_size(kind: u32) -> u64
    ensures { result ≡ field_size_of kind }
{
    match kind {
        0 => 0,
        1 | 24 => 8,
        _ => 4,
    }
}

// Whether the field lies in so many bytes.
fn is_field_inside(kind: u32, offset: u64, len: u64) -> bool
    ensures { IsTrue result → IsTrue (is_field_inside_of kind offset len) }
{
    match offset.checked_add(field_size(kind)) {
        Some(end) => end <= len,
        None => false,
    }
}

fn is_rela(rela: &Rela, symbols: u64, len: u64) -> bool
    ensures { IsTrue result → IsConsistentRela symbols len rela.now }
{
    is_rela_type(rela.kind)
        && u64::from(rela.symbol) < symbols
        && is_field_inside(rela.kind, rela.offset, len)
}

fn are_relas(relas: &[Rela], symbols: u64, len: u64) -> bool
    ensures { IsTrue result → All (IsConsistentRela symbols len) relas.now }
{
    for rela in relas {
        if !is_rela(rela, symbols, len) {
            return false;
        }
    }
    true
}

// Whether a section of this class stores these bytes.
fn has_its_bytes(class: Class, size: u64, bytes: &[u8]) -> bool
    ensures { IsTrue result → HasItsBytes class size bytes.now }
{
    match class {
        Class::Zero => bytes.is_empty(),
        _ => bytes.len() as u64 == size,
    }
}

// Whether a section of this class may have so many relocations.
fn may_have(class: Class, relocations: usize) -> bool
    ensures group { IsTrue result → class ≢ classes.Group }
    ensures zeros { IsTrue result → class ≡ classes.Zero → relocations ≡ 0 }
{
    match class {
        Class::Group => false,
        Class::Zero => relocations == 0,
        _ => true,
    }
}

fn is_section(section: &Section, symbols: u64) -> bool
    ensures { IsTrue result → IsSoundSection symbols section.now }
{
    if !has_no_zero(section.name.as_slice()) {
        return false;
    }
    if section.align != 16 {
        return false;
    }
    if !has_its_bytes(section.class, section.size, section.bytes.as_slice()) {
        return false;
    }
    if !may_have(section.class, section.relocations.len()) {
        return false;
    }
    are_relas(
        section.relocations.as_slice(),
        symbols,
        section.bytes.len() as u64,
    )
}

fn are_sections(sections: &[Section], symbols: u64) -> bool
    ensures { IsTrue result → All (IsSoundSection symbols) sections.now }
{
    for section in sections {
        if !is_section(section, symbols) {
            return false;
        }
    }
    true
}

fn is_place(place: SymbolPlace, sections: u64) -> bool
    ensures { IsTrue result → IsPlaceAmong sections place }
{
    match place {
        SymbolPlace::In(number) => u64::from(number) < sections,
        _ => true,
    }
}

fn is_symbol(symbol: &Symbol, sections: u64) -> bool
    ensures { IsTrue result → IsConsistentSymbol sections symbol.now }
{
    has_no_zero(symbol.name.as_slice()) && is_place(symbol.place, sections)
}

fn are_symbols(symbols: &[Symbol], sections: u64) -> bool
    ensures { IsTrue result → All (IsConsistentSymbol sections) symbols.now }
{
    for symbol in symbols {
        if !is_symbol(symbol, sections) {
            return false;
        }
    }
    true
}

// How many relocations the sections have together.
fn relocation_count(sections: &[Section]) -> Option<u64>
    ensures { IfSome result (λ count. count ≡ sum_by (λ s. length s.relocations) sections.now) }
{
    let mut count: u64 = 0;
    for section in sections {
        count = count.checked_add(section.relocations.len() as u64)?;
    }
    Some(count)
}

// How many bytes the names of the sections have together.
fn section_name_bytes(sections: &[Section]) -> Option<u64>
    ensures { IfSome result (λ count. count ≡ sum_by (λ s. length s.name) sections.now) }
{
    let mut count: u64 = 0;
    for section in sections {
        count = count.checked_add(section.name.len() as u64)?;
    }
    Some(count)
}

// How many bytes the names of the symbols have together.
fn symbol_name_bytes(symbols: &[Symbol]) -> Option<u64>
    ensures { IfSome result (λ count. count ≡ sum_by (λ s. length s.name) symbols.now) }
{
    let mut count: u64 = 0;
    for symbol in symbols {
        count = count.checked_add(symbol.name.len() as u64)?;
    }
    Some(count)
}

fn has_few_relocations(sections: &[Section]) -> bool
    ensures { IsTrue result → sum_by (λ s. length s.relocations) sections.now ≤ 1000000 }
{
    match relocation_count(sections) {
        Some(count) => count <= RELOCATION_LIMIT,
        None => false,
    }
}

fn has_few_name_bytes(sections: &[Section], symbols: &[Symbol]) -> bool
    ensures { IsTrue result → sum_by (λ s. length s.name) sections.now + sum_by (λ s. length s.name) symbols.now < 2 ^ 30 }
{
    match (section_name_bytes(sections), symbol_name_bytes(symbols)) {
        (Some(of_sections), Some(of_symbols)) => {
            of_sections < NAME_BYTES_LIMIT && of_symbols < NAME_BYTES_LIMIT - of_sections
        }
        _ => false,
    }
}

// Whether it is the symbol that stands for entry 0.
fn is_null(symbol: &Symbol) -> bool
    ensures { IsTrue result → symbol.now ≡ null_symbol }
{
    symbol.name.is_empty()
        && matches!(symbol.kind, SymbolKind::None)
        && matches!(symbol.bind, Bind::Local)
        && matches!(symbol.place, SymbolPlace::Absolute)
        && symbol.value == 0
        && symbol.size == 0
}

fn begins_with_null(symbols: &[Symbol]) -> bool
    ensures { IsTrue result → slice_get symbols.now 0 ≡ Some null_symbol }
{
    match symbols.first() {
        Some(symbol) => is_null(symbol),
        None => false,
    }
}

/// Whether the object keeps what writing asks for: four sections at most, the limits of an object, names without zero bytes, relocations
/// of types, symbols and fields that are there, and entry 0 first.
pub(crate) fn is_regular(object: &Object) -> bool
    ensures { IsTrue result → IsRegular object.now }
{
    let sections = object.sections.as_slice();
    let symbols = object.symbols.as_slice();
    sections.len() <= 4
        && symbols.len() <= SYMBOL_LIMIT
        && has_few_relocations(sections)
        && has_few_name_bytes(sections, symbols)
        && begins_with_null(symbols)
        && are_sections(sections, symbols.len() as u64)
        && are_symbols(symbols, sections.len() as u64)
}
