//! Executables that are written and read back. Places and values are those of the gABI's tables.

ghost use Rattle.std.specs.Prelude.{◌≡◌, ◌≢◌, ◌^◌, ◌≤◌, ◌<◌, IsTrue, All, Some, [], sum_by, length};
ghost use Rattle.cet_elf.specs.Consistent.{HasNoZero};
ghost use Rattle.cet_exec.specs.Regular.{IsRegularExec, IsRegularSegment, IsRegularSymbol};

use crate::{read_exec, write_exec};
use cet_base::{Bytes, NoMemory, Text};
use cet_elf::{
    Bind, ElfError, Exec, ExecSegment, ExecSegmentList, ExecSymbol, ExecSymbolList, SymbolKind,
};
use std::alloc::Global;
use std::test::Fail;

fn is_regular_segment(s: &ExecSegment) -> bool
    ensures { IsTrue result → IsRegularSegment s.now }
{
    s.size > 0 && s.bytes.len() as u64 <= s.size && s.flags < 8
}

fn has_no_zero(name: &[u8]) -> bool
    ensures { IsTrue result → HasNoZero name.now }
{
    !name.contains(&0)
}

fn is_regular_symbol(s: &ExecSymbol) -> bool
    ensures { IsTrue result → IsRegularSymbol s.now }
{
    !s.name.is_empty() && has_no_zero(s.name.as_slice()) && s.kind != SymbolKind::Section
}

fn are_regular_segments(segments: &[ExecSegment]) -> bool
    ensures { IsTrue result → All IsRegularSegment segments.now }
{
    for s in segments {
        if !is_regular_segment(s) {
            return false;
        }
    }
    true
}

fn are_regular_symbols(symbols: &[ExecSymbol]) -> bool
    ensures { IsTrue result → All IsRegularSymbol symbols.now }
{
    for s in symbols {
        if !is_regular_symbol(s) {
            return false;
        }
    }
    true
}

fn names_are_short(symbols: &[ExecSymbol]) -> bool
    ensures { IsTrue result → sum_by (λ s. length s.name) symbols.now < 2 ^ 31 }
{
    let mut sum = 0;
    for s in symbols {
        if s.name.len() > 1000 || sum > 100_000 {
            return false;
        }
        sum += s.name.len();
    }
    true
}

fn is_regular_note(notes: &Option<Bytes>) -> bool
    ensures { IsTrue result → notes.now ≢ Some [] }
{
    match notes {
        Some(note) => !note.is_empty(),
        None => true,
    }
}

// Whether a small executable is regular.
fn is_regular(exec: &Exec) -> bool
    ensures { IsTrue result → IsRegularExec exec.now }
{
    exec.segments.len() <= 16
        && are_regular_segments(exec.segments.as_slice())
        && are_regular_symbols(exec.symbols.as_slice())
        && names_are_short(exec.symbols.as_slice())
        && is_regular_note(&exec.notes)
}

// A segment: its start, its size, its flags and its bytes.
type SegmentRow = (u64, u64, u32, &'static [u8]);

// A field: its offset in the file, its size in bytes, and its number.
type Field = (u32, u8, u64);

// A symbol: its name, its kind, its binding and its value. Its size is 3.
type SymbolRow = (&'static [u8], SymbolKind, Bind, u64);

struct Row {
    segments: &'static [SegmentRow],
    symbols: &'static [SymbolRow],
    note: Option<&'static [u8]>,
    // Some fields of the file.
    fields: &'static [Field],
}

const NOTE: &[u8] = b"\x04\0\0\0\x10\0\0\0\x05\0\0\0GNU\0\x02\0\0\xc0\x04\0\0\0\x03\0\0\0\0\0\0\0";

// The note, and bytes behind it.
const READ: &[u8] =
    b"\x04\0\0\0\x10\0\0\0\x05\0\0\0GNU\0\x02\0\0\xc0\x04\0\0\0\x03\0\0\0\0\0\0\0data";

const NONE: SymbolKind = SymbolKind::None;

const FUNC: SymbolKind = SymbolKind::Func;

const OBJECT: SymbolKind = SymbolKind::Object;

const ROWS: &[Row] = &[
    // Nothing.
    Row {
        segments: &[],
        symbols: &[],
        note: None,
        // e_phoff, e_phentsize, e_phnum, e_shnum and e_shstrndx.
        fields: &[(32, 8, 64), (54, 2, 56), (56, 2, 0), (60, 2, 4), (62, 2, 3)],
    },
    // No segment and no symbol, but a note.
    Row {
        segments: &[],
        symbols: &[],
        note: Some(NOTE),
        // e_phnum; p_offset, p_vaddr, p_filesz, p_memsz and p_align of the note.
        fields: &[
            (56, 2, 1),
            (72, 8, 120),
            (80, 8, 0),
            (96, 8, 32),
            (104, 8, 32),
            (112, 8, 8),
        ],
    },
    // The three segments of a link editor, the note first in the one that is read; symbols in stored bytes, in zero bytes, past all, of value 0.
    Row {
        segments: &[
            (0x401000, 4, 5, b"\xf3\x0f\x1e\xfa"),
            (0x402000, 36, 4, READ),
            (0x403000, 24, 6, b"written."),
        ],
        symbols: &[
            (b"local", FUNC, Bind::Local, 0x401000),
            (b"_start", FUNC, Bind::Global, 0x401003),
            (b"data", OBJECT, Bind::Weak, 0x402020),
            (b"zero", OBJECT, Bind::Global, 0x403008),
            (b"end", NONE, Bind::Global, 0x403018),
            (b"none", NONE, Bind::Weak, 0),
        ],
        note: Some(NOTE),
        // e_phnum; the note's p_flags, p_offset, p_vaddr and p_paddr; st_shndx of local, data, zero and none; sh_info.
        fields: &[
            (56, 2, 4),
            (236, 4, 4),
            (240, 8, 0x2000),
            (248, 8, 0x402000),
            (256, 8, 0x402000),
            (12_326, 2, 1),
            (12_374, 2, 2),
            (12_398, 2, 0xfff1),
            (12_446, 2, 0xfff1),
            (12_940, 4, 2),
        ],
    },
    // Each set of flags, one segment without stored bytes; a local symbol behind others.
    Row {
        segments: &[
            (0, 1, 0, b"x"),
            (0x1000, 2, 1, b"x"),
            (0x2000, 2, 2, b""),
            (0x3000, 2, 3, b"xy"),
            (0x4000, 2, 4, b"x"),
            (0x5000, 2, 5, b"x"),
            (0x6000, 2, 6, b"x"),
            (0xffff_ffff_ffff_ffff, 0xffff_ffff_ffff_ffff, 7, b"xy"),
        ],
        symbols: &[
            (b"top", OBJECT, Bind::Global, 0xffff_ffff_ffff_ffff),
            (b"last", FUNC, Bind::Local, 0x3001),
        ],
        note: Some(NOTE),
        // p_flags, p_offset, p_filesz and p_memsz of the third; the note's p_offset and p_vaddr; st_shndx; sh_flags of .seg7; sh_info.
        fields: &[
            (180, 4, 2),
            (184, 8, 0x3000),
            (208, 8, 0),
            (216, 8, 2),
            (520, 8, 0x7008),
            (528, 8, 0),
            (28_742, 2, 8),
            (28_766, 2, 4),
            (29_416, 8, 7),
            (29_580, 4, 3),
        ],
    },
    // The order of a link editor without the first; no symbols.
    Row {
        segments: &[(0x402000, 5, 4, b"\x04\0\0\0\x10"), (0x403000, 1, 6, b"")],
        symbols: &[],
        note: Some(NOTE),
        // The note's p_offset and sh_addr; sh_info.
        fields: &[(184, 8, 0x2000), (8528, 8, 0), (8620, 4, 1)],
    },
    // Two segments of the same flags, the note first in both, and one address in both.
    Row {
        segments: &[(0x402000, 64, 4, READ), (0x402000, 32, 4, NOTE)],
        symbols: &[(b"twice", OBJECT, Bind::Global, 0x402004)],
        note: Some(NOTE),
        // The note's p_offset, sh_addr and sh_offset; st_shndx.
        fields: &[
            (184, 8, 0x1000),
            (8552, 8, 0x402000),
            (8560, 8, 0x1000),
            (8254, 2, 1),
        ],
    },
];

fn segments_of(alloc: Global, rows: &[SegmentRow]) -> Result<ExecSegmentList, NoMemory> {
    let mut segments = ExecSegmentList::new(alloc);
    for row in rows {
        segments.push(ExecSegment {
            start: row.0,
            size: row.1,
            flags: row.2,
            bytes: Bytes::from_slice(alloc, row.3)?,
        })?;
    }
    Ok(segments)
}

fn symbols_of(alloc: Global, rows: &[SymbolRow]) -> Result<ExecSymbolList, NoMemory> {
    let mut symbols = ExecSymbolList::new(alloc);
    for row in rows {
        symbols.push(ExecSymbol {
            name: Text::from_slice(alloc, row.0)?,
            kind: row.1,
            bind: row.2,
            value: row.3,
            size: 3,
        })?;
    }
    Ok(symbols)
}

fn exec_of(alloc: Global, row: &Row) -> Result<Exec, NoMemory> {
    let notes = match row.note {
        Some(note) => Some(Bytes::from_slice(alloc, note)?),
        None => None,
    };
    Ok(Exec {
        entry: 0x401000,
        segments: segments_of(alloc, row.segments)?,
        symbols: symbols_of(alloc, row.symbols)?,
        notes,
    })
}

// What is written for the executable, where that is regular.
fn file_of(alloc: Global, exec: &Exec) -> Result<Option<Vec<u8>>, NoMemory> {
    if !is_regular(exec) {
        return Ok(None);
    }
    Ok(Some(write_exec(alloc, exec)?))
}

// The number of a field.
fn number(file: &[u8], field: &Field) -> u64 {
    let mut number = 0u64;
    for i in (0..usize::from(field.1)).rev() {
        let byte = file.get(field.0 as usize + i).map_or(0, |byte| *byte);
        number = number.wrapping_mul(256).wrapping_add(u64::from(byte));
    }
    number
}

fn has_fields(file: &[u8], fields: &[Field]) -> bool {
    fields.iter().all(|field| number(file, field) == field.2)
}

#[test]
fn rows_are_read_back(rt: HostRuntime) -> Result<(), Fail> {
    for row in ROWS {
        let exec = exec_of(rt.alloc(), row)?;
        let file = file_of(rt.alloc(), &exec)?.ok_or("not regular")?;
        assert!(rt; read_exec(rt.alloc(), &file)? == exec);
        assert!(rt; has_fields(&file, row.fields));
    }
    Ok(())
}

const TINY_LEN: usize = 4632;

// The names of symbols, at 4184, and those of sections, at 4192.
const TINY_NAMES: &[u8; 60] =
    b"\0f\0\0\0\0\0\0\0.text\0.note.gnu.property\0.symtab\0.strtab\0.shstrtab\0";

// One segment, a note of its own bytes, and one symbol: the fields that are not 0.
const TINY: &[Field] = &[
    (0, 4, 0x464c_457f),
    (4, 1, 2),
    (5, 1, 1),
    (6, 1, 1),
    (16, 2, 2),
    (18, 2, 62),
    (20, 4, 1),
    (24, 8, 0x401000),
    (32, 8, 64),
    (40, 8, 4248),
    (52, 2, 64),
    (54, 2, 56),
    (56, 2, 2),
    (58, 2, 64),
    (60, 2, 6),
    (62, 2, 5),
    // PT_LOAD and PT_GNU_PROPERTY.
    (64, 4, 1),
    (68, 4, 5),
    (72, 8, 4096),
    (80, 8, 0x401000),
    (88, 8, 0x401000),
    (96, 8, 1),
    (104, 8, 2),
    (112, 8, 4096),
    (120, 4, 0x6474_e553),
    (124, 4, 4),
    (128, 8, 4104),
    (152, 8, 32),
    (160, 8, 32),
    (168, 8, 8),
    // The byte of the segment, the note, and the symbol f.
    (4096, 1, 0xc3),
    (4104, 4, 4),
    (4108, 4, 16),
    (4112, 4, 5),
    (4116, 4, 0x0055_4e47),
    (4120, 4, 0xc000_0002),
    (4124, 4, 4),
    (4128, 4, 3),
    (4160, 4, 1),
    (4164, 1, 2),
    (4166, 2, 1),
    (4168, 8, 0x401000),
    (4176, 8, 3),
    // .text, .note.gnu.property, .symtab, .strtab and .shstrtab.
    (4312, 4, 1),
    (4316, 4, 1),
    (4320, 8, 6),
    (4328, 8, 0x401000),
    (4336, 8, 4096),
    (4344, 8, 1),
    (4376, 4, 7),
    (4380, 4, 7),
    (4384, 8, 2),
    (4400, 8, 4104),
    (4408, 8, 32),
    (4424, 8, 8),
    (4440, 4, 26),
    (4444, 4, 2),
    (4464, 8, 4136),
    (4472, 8, 48),
    (4480, 4, 4),
    (4484, 4, 2),
    (4488, 8, 8),
    (4496, 8, 24),
    (4504, 4, 34),
    (4508, 4, 3),
    (4528, 8, 4184),
    (4536, 8, 3),
    (4568, 4, 42),
    (4572, 4, 3),
    (4592, 8, 4192),
    (4600, 8, 52),
];

const TINY_ROW: Row = Row {
    segments: &[(0x401000, 2, 5, b"\xc3")],
    symbols: &[(b"f", FUNC, Bind::Local, 0x401000)],
    note: Some(NOTE),
    fields: TINY,
};

fn put(file: &mut Vec<u8>, field: &Field) {
    for (i, byte) in field.2.to_le_bytes().iter().enumerate() {
        let at = field.0 as usize + i;
        if i < usize::from(field.1) && at < file.len() {
            file[at] = *byte;
        }
    }
}

// The file of these fields and names, with one field changed.
fn changed(alloc: Global, change: &Field) -> Result<Vec<u8>, NoMemory> {
    let mut file = vec![in alloc; 0u8; TINY_LEN]?;
    for (i, byte) in TINY_NAMES.iter().enumerate() {
        file[4184 + i] = *byte;
    }
    for field in TINY {
        put(&mut file, field);
    }
    put(&mut file, change);
    Ok(file)
}

#[test]
fn tiny_executable_byte_for_byte(rt: HostRuntime) -> Result<(), Fail> {
    let exec = exec_of(rt.alloc(), &TINY_ROW)?;
    let file = file_of(rt.alloc(), &exec)?.ok_or("not regular")?;
    assert_eq!(rt; file, changed(rt.alloc(), &(0, 4, 0x464c_457f))?);
    Ok(())
}

// A changed field, and the fault.
const FAULTS: &[(Field, ElfError)] = &[
    ((16, 2, 1), ElfError::Kind { at: 16 }),
    ((32, 8, 4521), ElfError::Bounds { at: 32 }),
    // A second PT_GNU_PROPERTY, and one whose bytes are not in the file.
    ((64, 4, 0x6474_e553), ElfError::Unsupported { at: 120 }),
    ((128, 8, 4601), ElfError::Bounds { at: 128 }),
    // PT_DYNAMIC, PT_INTERP and PT_TLS.
    ((64, 4, 2), ElfError::Unsupported { at: 64 }),
    ((64, 4, 3), ElfError::Unsupported { at: 64 }),
    ((120, 4, 7), ElfError::Unsupported { at: 120 }),
    // A PT_LOAD with more stored bytes than memory, without memory, and with bytes that are not in the file.
    ((96, 8, 3), ElfError::Bounds { at: 96 }),
    ((104, 8, 0), ElfError::Bounds { at: 96 }),
    ((72, 8, 4632), ElfError::Bounds { at: 72 }),
    // Names of entry 0 and of the other entry.
    ((4136, 4, 3), ElfError::Name { at: 4136 }),
    ((4160, 4, 3), ElfError::Name { at: 4160 }),
];

#[test]
fn first_faults(rt: HostRuntime) -> Result<(), Fail> {
    for row in FAULTS {
        let file = changed(rt.alloc(), &row.0)?;
        assert!(rt; matches!(read_exec(rt.alloc(), &file), Err(fault) if fault == row.1));
    }
    Ok(())
}
