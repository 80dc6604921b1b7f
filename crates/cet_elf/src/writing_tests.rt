//! Objects that are written and read back. Offsets and values are those of the gABI's tables.
ghost use Rattle.std.specs.Prelude.{◌≡◌, ◌≢◌, ◌+◌, ◌≤◌, ◌<◌, ◌^◌, IsTrue, All, Some, [], sum_by, count_by, slice_get, length};
ghost use Rattle.cet_elf.specs.declared.object.Class.TheVariants as classes;
ghost use Rattle.cet_elf.specs.Consistent.{HasNoZero, IsConsistent};
ghost use Rattle.cet_elf.specs.ObjectSymbols.{null_symbol};
ghost use Rattle.cet_elf.specs.Regular.{IsRegular};
ghost use Rattle.cet_elf.specs.Written.{has_relocations};

use crate::tests::{Field, LEN, changed, put};
use crate::{
    Bind, Class, ElfError, Object, Section, Symbol, SymbolKind, SymbolPlace, read_object,
    write_object,
};
use std::alloc::Global;
use std::test::Fail;

// No group, and no relocations of zeros.
fn may_stand(s: &Section) -> bool
    ensures group { IsTrue result → s.now.class ≢ classes.Group }
    ensures zeros { IsTrue result → s.now.class ≡ classes.Zero → s.now.relocations ≡ [] }
{
    match s.class {
        Class::Group => false,
        Class::Zero => s.relocations.is_empty(),
        _ => true,
    }
}

fn all_may_stand(sections: &[Section]) -> bool
    ensures group { IsTrue result → All (λ s. s.class ≢ classes.Group) sections.now }
    ensures zeros { IsTrue result → All (λ s. s.class ≡ classes.Zero → s.relocations ≡ []) sections.now }
{
    for s in sections {
        if !may_stand(s) {
            return false;
        }
    }
    true
}

fn is_null(s: &Symbol) -> bool
    ensures { IsTrue result → s.now ≡ null_symbol }
{
    s.name.is_empty()
        && matches!(s.kind, SymbolKind::None)
        && matches!(s.bind, Bind::Local)
        && matches!(s.place, SymbolPlace::Absolute)
        && s.value == 0
        && s.size == 0
}

fn begins_with_null(symbols: &[Symbol]) -> bool
    ensures { IsTrue result → slice_get symbols.now 0 ≡ Some null_symbol }
{
    match symbols.first() {
        Some(s) => is_null(s),
        None => false,
    }
}

fn are_few(sections: &[Section]) -> bool
    ensures { IsTrue result → length sections.now + count_by has_relocations sections.now + 5 ≤ 4096 }
{
    sections.len() < 2000
}

fn section_names_are_short(sections: &[Section]) -> bool
    ensures { IsTrue result → sum_by (λ s. length s.name) sections.now < 2 ^ 29 }
{
    let mut sum = 0;
    for s in sections {
        if s.name.len() > 1000 || sum > 100_000 {
            return false;
        }
        sum += s.name.len();
    }
    true
}

fn symbol_names_are_short(symbols: &[Symbol]) -> bool
    ensures { IsTrue result → sum_by (λ s. length s.name) symbols.now < 2 ^ 29 }
{
    let mut sum = 0;
    for s in symbols {
        if s.name.len() > 1000 || sum > 100_000 {
            return false;
        }
        sum += s.name.len();
    }
    true
}

// Whether an object that was read is small and regular.
fn is_regular(object: &Object) -> bool
    requires consistent { IsConsistent object.now }
    requires section_names { All (λ s. HasNoZero s.name) object.now.sections }
    ensures { IsTrue result → IsRegular object.now }
{
    let sections = object.sections.as_slice();
    let symbols = object.symbols.as_slice();
    are_few(sections)
        && section_names_are_short(sections)
        && symbol_names_are_short(symbols)
        && all_may_stand(sections)
        && begins_with_null(symbols)
}

const TINY_LEN: usize = 584;

// The names of symbols, at 144, and those of sections, at 152.
const TINY_NAMES: &[u8; 52] = b"\0f\0\0\0\0\0\0\0.text\0.rela.text\0.symtab\0.strtab\0.shstrtab\0";

// One section with one relocation, and one symbol: the fields that are not 0.
const TINY: &[Field] = &[
    (0, 4, 0x464c_457f),
    (4, 1, 2),
    (5, 1, 1),
    (6, 1, 1),
    (16, 2, 1),
    (18, 2, 62),
    (20, 4, 1),
    (40, 8, 200),
    (52, 2, 64),
    (58, 2, 64),
    (60, 2, 6),
    (62, 2, 5),
    // The bytes of .text; its relocation, of type NONE, for symbol 1; the symbol f.
    (64, 1, 0xc3),
    (84, 4, 1),
    (88, 8, 7),
    (120, 4, 1),
    (124, 1, 0x12),
    (126, 2, 1),
    (136, 8, 1),
    // .text, .rela.text, .symtab, .strtab and .shstrtab.
    (264, 4, 1),
    (268, 4, 1),
    (272, 8, 6),
    (288, 8, 64),
    (296, 8, 1),
    (312, 8, 1),
    (328, 4, 7),
    (332, 4, 4),
    (352, 8, 72),
    (360, 8, 24),
    (368, 4, 3),
    (372, 4, 1),
    (376, 8, 8),
    (384, 8, 24),
    (392, 4, 18),
    (396, 4, 2),
    (416, 8, 96),
    (424, 8, 48),
    (432, 4, 4),
    (436, 4, 1),
    (440, 8, 8),
    (448, 8, 24),
    (456, 4, 26),
    (460, 4, 3),
    (480, 8, 144),
    (488, 8, 3),
    (520, 4, 34),
    (524, 4, 3),
    (544, 8, 152),
    (552, 8, 44),
];

// What is written for the object that the file is, where that is regular.
fn rewritten(alloc: Global, file: &[u8]) -> Result<Option<Vec<u8>>, ElfError> {
    let object = read_object(alloc, file)?;
    if !is_regular(&object) {
        return Ok(None);
    }
    Ok(Some(write_object(alloc, &object)?))
}

#[test]
fn tiny_object_byte_for_byte(rt: HostRuntime) -> Result<(), Fail> {
    let mut file = vec![in rt.alloc(); 0u8; TINY_LEN]?;
    for (i, byte) in TINY_NAMES.iter().enumerate() {
        file[144 + i] = *byte;
    }
    for field in TINY {
        put(&mut file, field);
    }
    let written = rewritten(rt.alloc(), &file)?.ok_or("not regular")?;
    assert_eq!(rt; written, file);
    Ok(())
}

#[test]
fn every_field_is_read_back(rt: HostRuntime) -> Result<(), Fail> {
    let file = changed(rt.alloc(), LEN, &[])?;
    let object = read_object(rt.alloc(), &file)?;
    let written = rewritten(rt.alloc(), &file)?.ok_or("not regular")?;
    assert!(rt; read_object(rt.alloc(), &written)? == object);
    Ok(())
}
