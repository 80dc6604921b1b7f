//! A small object with everything that is read, one changed field at a time. Offsets and values are those of the gABI's tables.
use crate::{Class, ElfError, Object, SymbolPlace, read_object};
use std::alloc::{AllocError, Global};
use std::test::Fail;

// A field: its offset in the file, its size in bytes, and its number.
pub type Field = (u32, u8, u64);

pub const LEN: usize = 1032;

// The names of sections and symbols, which stand at 360.
const NAMES: &[u8; 85] =
    b"\0.text\0.rela.text\0.data\0.bss\0.note.gnu.property\0.comment\0.symtab\0.strtab\0a.c\0u\0f\0g\0c\0";

// The fields that are not 0.
const FIELDS: &[Field] = &[
    // The header.
    (0, 4, 0x464c_457f),
    (4, 1, 2),
    (5, 1, 1),
    (6, 1, 1),
    (16, 2, 1),
    (18, 2, 62),
    (40, 8, 456),
    (58, 2, 64),
    (60, 2, 9),
    (62, 2, 8),
    // The bytes of .text, .data and the note.
    (64, 8, 0x1122),
    (80, 8, 0x3344),
    (88, 8, 0x5566),
    // .rela.text: PLT32 of entry 6, 64 of entry 2, NONE of entry 0.
    (96, 8, 4),
    (104, 4, 4),
    (108, 4, 6),
    (112, 8, 0xffff_ffff_ffff_fffc),
    (120, 8, 8),
    (128, 4, 1),
    (132, 4, 2),
    (144, 8, 99),
    (160, 8, 5),
    // .symtab: entry 0 is not looked at; a file; the section .data; u in .comment; a file; f in .text; g; c.
    (168, 8, 0xffff_ffff_ffff_ffff),
    (192, 4, 73),
    (196, 1, 4),
    (198, 2, 0xfff1),
    (220, 1, 3),
    (222, 2, 3),
    (240, 4, 77),
    (244, 1, 1),
    (246, 2, 6),
    (248, 8, 7),
    (268, 1, 4),
    (288, 4, 79),
    (292, 1, 0x12),
    (294, 2, 1),
    (296, 8, 2),
    (304, 8, 16),
    (312, 4, 81),
    (316, 1, 0x20),
    (336, 4, 83),
    (340, 1, 0x11),
    (342, 2, 0xfff2),
    (344, 8, 8),
    (352, 8, 24),
    // .text, .rela.text, .data, .bss, .note.gnu.property, .comment, .symtab and .strtab.
    (520, 4, 1),
    (524, 4, 1),
    (528, 8, 6),
    (544, 8, 64),
    (552, 8, 16),
    (568, 8, 16),
    (584, 4, 7),
    (588, 4, 4),
    (608, 8, 96),
    (616, 8, 72),
    (628, 4, 1),
    (648, 4, 18),
    (652, 4, 1),
    (656, 8, 3),
    (672, 8, 80),
    (680, 8, 8),
    (712, 4, 24),
    (716, 4, 8),
    (720, 8, 3),
    (736, 8, 9999),
    (744, 8, 32),
    (760, 8, 32),
    (776, 4, 29),
    (780, 4, 7),
    (784, 8, 2),
    (800, 8, 88),
    (808, 8, 8),
    (840, 4, 48),
    (844, 4, 1),
    (864, 8, 80),
    (872, 8, 8),
    (904, 4, 57),
    (908, 4, 2),
    (928, 8, 168),
    (936, 8, 192),
    (944, 4, 8),
    (968, 4, 65),
    (972, 4, 3),
    (992, 8, 360),
    (1000, 8, 85),
];

// Fields that differ from those above, and the first fault then.
const CASES: &[(&[Field], Option<ElfError>)] = &[
    (&[], None),
    // The header, in order.
    (&[(0, 1, 0), (4, 1, 1)], Some(ElfError::Magic { at: 0 })),
    (&[(4, 1, 1), (5, 1, 2)], Some(ElfError::Class { at: 4 })),
    (&[(5, 1, 2), (6, 1, 0)], Some(ElfError::Class { at: 5 })),
    (&[(6, 1, 0), (16, 2, 2)], Some(ElfError::Class { at: 6 })),
    (&[(16, 2, 2), (18, 2, 3)], Some(ElfError::Kind { at: 16 })),
    (
        &[(18, 2, 3), (58, 2, 40)],
        Some(ElfError::Machine { at: 18 }),
    ),
    (&[(58, 2, 40), (56, 2, 1)], Some(ElfError::Kind { at: 58 })),
    (&[(58, 2, 40), (60, 2, 0)], None),
    (
        &[(56, 2, 1), (60, 2, 4097)],
        Some(ElfError::Kind { at: 54 }),
    ),
    (&[(60, 2, 4097)], Some(ElfError::TooMany { at: 60 })),
    (
        &[(60, 2, 10), (56, 2, 1), (54, 2, 56), (32, 8, 1000)],
        Some(ElfError::Bounds { at: 40 }),
    ),
    (&[(40, 8, u64::MAX)], Some(ElfError::Bounds { at: 40 })),
    (&[(40, 8, 9999), (60, 2, 0)], None),
    (
        &[(56, 2, 1), (54, 2, 56), (32, 8, 977)],
        Some(ElfError::Bounds { at: 32 }),
    ),
    (&[(56, 2, 1), (54, 2, 56), (32, 8, 976)], None),
    // Places, then names.
    (
        &[(672, 8, 1025), (520, 4, 85)],
        Some(ElfError::Bounds { at: 672 }),
    ),
    (&[(672, 8, 9999), (680, 8, 0)], None),
    (
        &[(520, 4, 85), (652, 4, 14)],
        Some(ElfError::Name { at: 520 }),
    ),
    (&[(520, 4, 84)], None),
    (&[(62, 2, 0)], Some(ElfError::Name { at: 456 })),
    (&[(62, 2, 9)], Some(ElfError::Name { at: 456 })),
    (&[(62, 2, 4)], Some(ElfError::Name { at: 456 })),
    // Kinds of sections.
    (
        &[(652, 4, 14), (288, 4, 85)],
        Some(ElfError::Unsupported { at: 648 }),
    ),
    (&[(656, 8, 0x403)], Some(ElfError::Unsupported { at: 648 })),
    (&[(656, 8, 0x802)], Some(ElfError::Unsupported { at: 648 })),
    (&[(656, 8, 7)], Some(ElfError::Unsupported { at: 648 })),
    (&[(848, 8, 0x405)], None),
    (&[(696, 8, 3)], Some(ElfError::Unsupported { at: 648 })),
    (&[(696, 8, 8192)], Some(ElfError::Unsupported { at: 648 })),
    (&[(696, 8, 4096), (888, 8, 3)], None),
    (
        &[(844, 4, 17), (888, 8, 3)],
        Some(ElfError::Unsupported { at: 840 }),
    ),
    (&[(588, 4, 9)], Some(ElfError::Unsupported { at: 584 })),
    (&[(588, 4, 9), (628, 4, 6)], None),
    (&[(844, 4, 2)], Some(ElfError::Unsupported { at: 904 })),
    (&[(844, 4, 18)], Some(ElfError::Unsupported { at: 840 })),
    (
        &[(844, 4, 7), (840, 4, 29)],
        Some(ElfError::Unsupported { at: 840 }),
    ),
    (&[(844, 4, 7)], None),
    // Symbols, entry by entry.
    (
        &[(264, 4, 85), (288, 4, 85)],
        Some(ElfError::Name { at: 264 }),
    ),
    (&[(944, 4, 0)], Some(ElfError::Name { at: 192 })),
    (&[(444, 1, 1)], Some(ElfError::Name { at: 336 })),
    (
        &[(246, 2, 9), (292, 1, 0x15)],
        Some(ElfError::SymbolIndex { at: 246 }),
    ),
    (
        &[(292, 1, 0x15), (294, 2, 9)],
        Some(ElfError::Unsupported { at: 292 }),
    ),
    (&[(292, 1, 0x32)], Some(ElfError::Unsupported { at: 292 })),
    (&[(268, 1, 0x34), (270, 2, 77)], None),
    (
        &[(294, 2, 9), (104, 4, 3)],
        Some(ElfError::SymbolIndex { at: 294 }),
    ),
    (&[(294, 2, 0xfff3)], Some(ElfError::SymbolIndex { at: 294 })),
    // Relocations.
    (
        &[(104, 4, 3), (108, 4, 1)],
        Some(ElfError::RelaType { at: 104, value: 3 }),
    ),
    (
        &[(108, 4, 1), (96, 8, 13)],
        Some(ElfError::SymbolIndex { at: 104 }),
    ),
    (&[(108, 4, 8)], Some(ElfError::SymbolIndex { at: 104 })),
    (&[(96, 8, 13)], Some(ElfError::Bounds { at: 96 })),
    (&[(96, 8, 12)], None),
    (&[(96, 8, u64::MAX)], Some(ElfError::Bounds { at: 96 })),
    (&[(120, 8, 9)], Some(ElfError::Bounds { at: 120 })),
    (&[(628, 4, 4)], Some(ElfError::Bounds { at: 96 })),
    (&[(628, 4, 5)], Some(ElfError::Bounds { at: 120 })),
    (&[(628, 4, 6), (104, 4, 3)], None),
    (&[(628, 4, 99), (104, 4, 3)], None),
    // Without a symbol table.
    (&[(908, 4, 1)], Some(ElfError::SymbolIndex { at: 104 })),
];

pub fn put(file: &mut Vec<u8>, field: &Field) {
    for (i, byte) in field.2.to_le_bytes().iter().enumerate() {
        let at = field.0 as usize + i;
        if i < usize::from(field.1) && at < file.len() {
            file[at] = *byte;
        }
    }
}

// The file of `len` bytes with these fields changed.
pub fn changed(alloc: Global, len: usize, changes: &[Field]) -> Result<Vec<u8>, AllocError> {
    let mut file = vec![in alloc; 0u8; len]?;
    for (i, byte) in NAMES.iter().enumerate() {
        if 360 + i < file.len() {
            file[360 + i] = *byte;
        }
    }
    for field in FIELDS {
        put(&mut file, field);
    }
    for field in changes {
        put(&mut file, field);
    }
    Ok(file)
}

fn fault(alloc: Global, file: &[u8]) -> Option<ElfError> {
    match read_object(alloc, file) {
        Ok(_) => None,
        Err(fault) => Some(fault),
    }
}

#[test]
fn first_faults(rt: HostRuntime) -> Result<(), Fail> {
    let mut file = changed(rt.alloc(), LEN, &[])?;
    file.truncate(63);
    assert_eq!(rt; fault(rt.alloc(), &file), Some(ElfError::Bounds { at: 0 }));
    assert_eq!(rt;
        fault(rt.alloc(), &[0; 64]),
        Some(ElfError::Magic { at: 0 })
    );
    for (changes, expected) in CASES {
        let file = changed(rt.alloc(), LEN, changes)?;
        assert_eq!(rt; fault(rt.alloc(), &file), *expected, "{changes:?}");
    }
    Ok(())
}

// The sections with their relocations, the symbols and the note, a line each.
fn told(alloc: Global, object: &Object) -> Result<String, Fail> {
    let mut text = String::new(alloc);
    for s in object.sections.as_slice() {
        let name = str::from_utf8(s.name.as_slice())?;
        writeln!(
            text,
            "{name} {:?} {} {} {:?}",
            s.class, s.align, s.size, s.bytes
        )?;
        for r in s.relocations.as_slice() {
            writeln!(text, "{} {} {} {}", r.offset, r.kind, r.symbol, r.addend)?;
        }
    }
    for s in object.symbols.as_slice() {
        let name = str::from_utf8(s.name.as_slice())?;
        writeln!(
            text,
            "{name} {:?} {:?} {:?} {} {}",
            s.kind, s.bind, s.place, s.value, s.size
        )?;
    }
    writeln!(text, "{:?}", object.notes)?;
    Ok(text)
}

const TOLD: &str = "\
.text Code 16 16 [34, 17, 0, 0, 0, 0, 0, 0, 0, 0, 0, 0, 0, 0, 0, 0]
4 4 4 -4
8 1 1 0
99 0 0 5
.data Write 1 8 [68, 51, 0, 0, 0, 0, 0, 0]
.bss Zero 32 32 []
 None Local Absolute 0 0
 Section Local In(1) 0 0
u Object Local Absolute 0 0
f Func Global In(0) 2 16
g None Weak Undefined 0 0
c Object Global Common 8 24
Some([102, 85, 0, 0, 0, 0, 0, 0])
";

#[test]
fn values(rt: HostRuntime) -> Result<(), Fail> {
    let file = changed(rt.alloc(), LEN, &[])?;
    let object = read_object(rt.alloc(), &file)?;
    assert_eq!(rt; told(rt.alloc(), &object)?.as_str(), TOLD);
    // The section that u names is a group: it is kept.
    let file = changed(rt.alloc(), LEN, &[(844, 4, 17)])?;
    let object = read_object(rt.alloc(), &file)?;
    let group = object.sections.get(3).ok_or("no group")?;
    assert!(rt; group.class == Class::Group && group.bytes.len() == 8);
    let symbol = object.symbols.get(2).ok_or("no symbol")?;
    assert!(rt; symbol.place == SymbolPlace::In(3) && symbol.value == 7);
    Ok(())
}

// Tables of zeros behind the file, of so many entries.
#[test]
fn limits(rt: HostRuntime) -> Result<(), Fail> {
    for (entries, expected) in [
        (65_536, None),
        (65_537, Some(ElfError::TooMany { at: 904 })),
    ] {
        let symbols = [(628, 4, 6), (928, 8, 1032), (936, 8, 24 * entries)];
        let file = changed(rt.alloc(), 1_700_000, &symbols)?;
        assert_eq!(rt; fault(rt.alloc(), &file), expected);
    }
    // Two sections with the same entries of type NONE, 24 bytes each: the second passes the limit.
    for (entries, expected) in [
        (500_000, None),
        (500_001, Some(ElfError::TooMany { at: 840 })),
    ] {
        let relocations = [
            (608, 8, 1032),
            (616, 8, 24 * entries),
            (844, 4, 4),
            (884, 4, 1),
            (864, 8, 1032),
            (872, 8, 24 * entries),
        ];
        let file = changed(rt.alloc(), 12_100_000, &relocations)?;
        assert_eq!(rt; fault(rt.alloc(), &file), expected);
    }
    Ok(())
}
