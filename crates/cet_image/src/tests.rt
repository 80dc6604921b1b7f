//! Images and their faults. Flags, types of symbols and the words of notes are those of the gABI's and the psABI's tables.

ghost use Rattle.std.specs.Prelude.{◌≤◌, length, IsTrue, All};

use crate::{
    FuncId, Function, Image, ImageError, Segment, byte_at, function_at, image_of, raw_image,
};
use bitflags::Flags;
use cet_base::{Bytes, NoMemory, Span, Text};
use cet_elf::{Bind, Exec, ExecSegment, ExecSegmentList, ExecSymbol, ExecSymbolList, SymbolKind};
use cet_note::{Features, NoteError};
use std::alloc::Global;
use std::test::Fail;

// A segment: its start, its size, its flags and its bytes.
type SegmentRow = (u64, u64, u32, &'static [u8]);

// A symbol: its name, its kind, its value and its size.
type SymbolRow = (&'static [u8], SymbolKind, u64, u64);

struct Row {
    segments: &'static [SegmentRow],
    symbols: &'static [SymbolRow],
    note: Option<&'static [u8]>,
    fault: Option<ImageError>,
}

const FUNC: SymbolKind = SymbolKind::Func;

const OBJECT: SymbolKind = SymbolKind::Object;

const NOTE: &[u8] = b"\x04\0\0\0\x10\0\0\0\x05\0\0\0GNU\0\x02\0\0\xc0\x04\0\0\0\x03\0\0\0\0\0\0\0";

// The note without its last bytes: the data of the property, at 24, passes the end.
const CUT: Option<&[u8]> = Some(
    b"\x04\0\0\0\x10\0\0\0\x05\0\0\0GNU\0\x02\0\0\xc0\x04\0\0\0\x03\0\0",
);

const CUT_FAULT: Option<ImageError> = Some(ImageError::Note {
    error: NoteError::Cut { at: 24 },
});

// Sixteen segments of one byte, and one more.
const SIXTEEN: &[SegmentRow] = &[
    (0x0000, 1, 4, b""),
    (0x1000, 1, 4, b""),
    (0x2000, 1, 4, b""),
    (0x3000, 1, 4, b""),
    (0x4000, 1, 4, b""),
    (0x5000, 1, 4, b""),
    (0x6000, 1, 4, b""),
    (0x7000, 1, 4, b""),
    (0x8000, 0, 4, b""),
    (0x9000, 1, 4, b""),
    (0xa000, 1, 4, b""),
    (0xb000, 1, 4, b""),
    (0xc000, 1, 4, b""),
    (0xd000, 1, 4, b""),
    (0xe000, 1, 4, b""),
    (0xf000, 1, 4, b""),
    (0xffff, 1, 4, b""),
];

// The last is out of range, and the first two share a byte.
const SEVENTEEN: &[SegmentRow] = &[
    (0x0000, 2, 4, b""),
    (0x0001, 1, 4, b""),
    (0x2000, 1, 4, b""),
    (0x3000, 1, 4, b""),
    (0x4000, 1, 4, b""),
    (0x5000, 1, 4, b""),
    (0x6000, 1, 4, b""),
    (0x7000, 1, 4, b""),
    (0x8000, 1, 4, b""),
    (0x9000, 1, 4, b""),
    (0xa000, 1, 4, b""),
    (0xb000, 1, 4, b""),
    (0xc000, 1, 4, b""),
    (0xd000, 1, 4, b""),
    (0xe000, 1, 4, b""),
    (0xf000, 1, 4, b""),
    (0x8000_0000_0000, 1, 4, b""),
];

const ROWS: &[Row] = &[
    // Nothing, and segments that touch.
    Row {
        segments: &[],
        symbols: &[],
        note: None,
        fault: None,
    },
    Row {
        segments: &[(0x2000, 0x1000, 4, b""), (0x1000, 0x1000, 5, b"")],
        symbols: &[],
        note: Some(b""),
        fault: None,
    },
    // One byte is shared; the first pair by its first segment, then by its second.
    Row {
        segments: &[(0x1fff, 1, 4, b""), (0x1000, 0x1000, 5, b"")],
        symbols: &[],
        note: None,
        fault: Some(ImageError::Overlap {
            a: 0x1fff,
            b: 0x1000,
        }),
    },
    Row {
        segments: &[
            (0x3000, 0x1000, 4, b""),
            (0x1000, 0x1000, 4, b""),
            (0x3fff, 1, 4, b""),
            (0x1800, 0x2000, 4, b""),
        ],
        symbols: &[],
        note: None,
        fault: Some(ImageError::Overlap {
            a: 0x3000,
            b: 0x3fff,
        }),
    },
    Row {
        segments: &[
            (0x5000, 0x1000, 4, b""),
            (0x1000, 0x1000, 4, b""),
            (0x1800, 0x100, 4, b""),
            (0x1900, 0x100, 4, b""),
        ],
        symbols: &[],
        note: None,
        fault: Some(ImageError::Overlap {
            a: 0x1000,
            b: 0x1800,
        }),
    },
    // A segment without memory shares no byte and is nowhere.
    Row {
        segments: &[
            (0x1000, 0x1000, 4, b""),
            (0x1800, 0, 4, b""),
            (0xffff_ffff_ffff_ffff, 0, 4, b""),
        ],
        symbols: &[],
        note: None,
        fault: None,
    },
    // The longest segment, and one byte more; the last address, and one more; an end past 2^64.
    Row {
        segments: &[
            (0x1000, 16_777_216, 4, b""),
            (0x7fff_ffff_f000, 0x1000, 4, b""),
        ],
        symbols: &[(b"f", FUNC, 0x7fff_ffff_f000, 0x1000)],
        note: None,
        fault: None,
    },
    Row {
        segments: &[(0x1000, 1, 4, b""), (0x2000, 16_777_217, 4, b"")],
        symbols: &[],
        note: None,
        fault: Some(ImageError::Range { at: 0x2000 }),
    },
    Row {
        segments: &[(0x7fff_ffff_f000, 0x1001, 4, b"")],
        symbols: &[],
        note: None,
        fault: Some(ImageError::Range {
            at: 0x7fff_ffff_f000,
        }),
    },
    Row {
        segments: &[(0xffff_ffff_ffff_f000, 0x2000, 4, b"")],
        symbols: &[],
        note: None,
        fault: Some(ImageError::Range {
            at: 0xffff_ffff_ffff_f000,
        }),
    },
    // The first function by its start; a segment before any function; what is no function.
    Row {
        segments: &[],
        symbols: &[
            (b"last", FUNC, 0xffff_ffff_ffff_ffff, 0xffff_ffff_ffff_ffff),
            (b"first", FUNC, 0x7fff_ffff_ffff, 2),
            (b"whole", FUNC, 0x7fff_ffff_ffff, 1),
        ],
        note: None,
        fault: Some(ImageError::Range {
            at: 0x7fff_ffff_ffff,
        }),
    },
    Row {
        segments: &[(0x1000, 1, 4, b""), (0x9000_0000_0000, 1, 4, b"")],
        symbols: &[(b"f", FUNC, 0x8000_0000_0000, 1)],
        note: None,
        fault: Some(ImageError::Range {
            at: 0x9000_0000_0000,
        }),
    },
    Row {
        segments: &[],
        symbols: &[
            (b"f", FUNC, 0xffff_ffff_ffff_ffff, 0),
            (b"o", OBJECT, 0xffff_ffff_ffff_ffff, 9),
            (b"n", SymbolKind::None, 0x8000_0000_0000, 9),
        ],
        note: None,
        fault: None,
    },
    // Sixteen segments beside one without memory; seventeen, before range; range before a shared byte.
    Row {
        segments: SIXTEEN,
        symbols: &[],
        note: None,
        fault: None,
    },
    Row {
        segments: SEVENTEEN,
        symbols: &[],
        note: Some(NOTE),
        fault: Some(ImageError::TooMany),
    },
    Row {
        segments: &[
            (0x1000, 0x1000, 4, b""),
            (0x1000, 0x1000, 4, b""),
            (0x3000, 16_777_217, 4, b""),
        ],
        symbols: &[],
        note: None,
        fault: Some(ImageError::Range { at: 0x3000 }),
    },
    Row {
        segments: &[(0x1000, 0x1000, 4, b""), (0x1000, 0x1000, 4, b"")],
        symbols: &[(b"f", FUNC, 0x8000_0000_0000, 1)],
        note: None,
        fault: Some(ImageError::Range {
            at: 0x8000_0000_0000,
        }),
    },
    // A note that is cut, before each of the others.
    Row {
        segments: &[],
        symbols: &[],
        note: CUT,
        fault: CUT_FAULT,
    },
    Row {
        segments: SEVENTEEN,
        symbols: &[(b"f", FUNC, 0x8000_0000_0000, 1)],
        note: CUT,
        fault: CUT_FAULT,
    },
];

fn segments_of(alloc: Global, rows: &[SegmentRow]) -> Result<ExecSegmentList, NoMemory> {
    let mut segments = ExecSegmentList::new(alloc);
    for row in rows {
        segments.push(ExecSegment {
            start: row.0,
            size: row.1,
            flags: row.2,
            bytes: Bytes::from_slice(alloc, row.3)?,
        })?;
    }
    Ok(segments)
}

fn symbols_of(alloc: Global, rows: &[SymbolRow]) -> Result<ExecSymbolList, NoMemory> {
    let mut symbols = ExecSymbolList::new(alloc);
    for row in rows {
        symbols.push(ExecSymbol {
            name: Text::from_slice(alloc, row.0)?,
            kind: row.1,
            bind: Bind::Local,
            value: row.2,
            size: row.3,
        })?;
    }
    Ok(symbols)
}

fn exec_of(alloc: Global, row: &Row) -> Result<Exec, NoMemory> {
    let notes = match row.note {
        Some(note) => Some(Bytes::from_slice(alloc, note)?),
        None => None,
    };
    Ok(Exec {
        entry: 0x1004,
        segments: segments_of(alloc, row.segments)?,
        symbols: symbols_of(alloc, row.symbols)?,
        notes,
    })
}

fn are_stored(segments: &[ExecSegment]) -> bool
    ensures { IsTrue result → All (λ s. length s.bytes ≤ s.size) segments.now }
{
    segments.iter().all(|s| s.bytes.len() as u64 <= s.size)
}

// The image, or the fault; want of memory where some segment has more bytes than its size.
fn image(alloc: Global, exec: &Exec) -> Result<Image, ImageError> {
    if !are_stored(exec.segments.as_slice()) {
        return Err(ImageError::NoMemory);
    }
    image_of(alloc, exec)
}

#[test]
fn faults(rt: HostRuntime) -> Result<(), Fail> {
    for row in ROWS {
        let exec = exec_of(rt.alloc(), row)?;
        assert_eq!(rt; image(rt.alloc(), &exec).err(), row.fault);
    }
    Ok(())
}

// So many functions of one byte, so many addresses apart.
const COUNTS: [(u64, u64, Option<ImageError>); 3] = [
    (65_536, 16, None),
    (65_537, 16, Some(ImageError::TooMany)),
    (65_537, 0, None),
];

fn functions(alloc: Global, count: u64, apart: u64) -> Result<Exec, NoMemory> {
    let mut symbols = ExecSymbolList::new(alloc);
    for i in 0..count {
        symbols.push(ExecSymbol {
            name: Text::new(alloc),
            kind: FUNC,
            bind: Bind::Global,
            value: i.wrapping_mul(apart),
            size: 1,
        })?;
    }
    Ok(Exec {
        entry: 0,
        segments: ExecSegmentList::new(alloc),
        symbols,
        notes: None,
    })
}

#[test]
fn counts_of_functions(rt: HostRuntime) -> Result<(), Fail> {
    for (count, apart, fault) in COUNTS {
        let exec = functions(rt.alloc(), count, apart)?;
        assert_eq!(rt; image(rt.alloc(), &exec).err(), fault);
    }
    Ok(())
}

const WHOLE: Row = Row {
    segments: &[
        (0x3000, 9, 6, b"written."),
        (0x4000, 0, 7, b""),
        (0x1000, 4, 5, b"\xf3\x0f\x1e\xfa"),
        (0x2000, 1, 0xffff_fff8, b""),
    ],
    symbols: &[
        (b"g", FUNC, 0x1008, 4),
        (b"long", FUNC, 0x1000, 8),
        (b"__cet_fibers", SymbolKind::None, 1, 8),
        (b"short", FUNC, 0x1000, 4),
        (b"__cet_fiber", OBJECT, 2, 8),
        (b"__cet_fibers", OBJECT, 0x3000, 16),
        (b"again", FUNC, 0x1000, 8),
        (b"__cet_fibers", OBJECT, 0x3008, 24),
        (b"empty", FUNC, 0x1004, 0),
    ],
    note: Some(NOTE),
    fault: None,
};

// What stands in memory of a segment: start, size, readable, writable, executable, the number of stored bytes.
fn told(segment: &Segment) -> (u64, u64, bool, bool, bool, usize) {
    (
        segment.start,
        segment.size,
        segment.readable,
        segment.writable,
        segment.executable,
        segment.bytes.len(),
    )
}

const SEGMENTS: [(u64, u64, bool, bool, bool, usize); 3] = [
    (0x3000, 9, true, true, false, 8),
    (0x1000, 4, true, false, true, 4),
    (0x2000, 1, false, false, false, 0),
];

const FUNCTIONS: [Function; 3] = [
    Function {
        start: 0x1000,
        size: 4,
    },
    Function {
        start: 0x1000,
        size: 8,
    },
    Function {
        start: 0x1008,
        size: 4,
    },
];

// An address, and the function that starts there.
const PLACES: [(u64, Option<FuncId>); 6] = [
    (0, None),
    (0x1000, Some(FuncId(0))),
    (0x1004, None),
    (0x1008, Some(FuncId(2))),
    (0x1009, None),
    (0xffff_ffff_ffff_ffff, None),
];

#[test]
fn a_whole_image(rt: HostRuntime) -> Result<(), Fail> {
    let exec = exec_of(rt.alloc(), &WHOLE)?;
    let image = image(rt.alloc(), &exec).ok().ok_or("no image")?;
    assert_eq!(rt; image.segments.len(), 3);
    for (segment, row) in image.segments.as_slice().iter().zip(&SEGMENTS) {
        assert_eq!(rt; told(segment), *row);
    }
    assert!(rt; image.functions.as_slice() == FUNCTIONS.as_slice());
    let slots = Some(Span {
        start: 0x3000,
        len: 16,
    });
    assert_eq!(rt; image.slots, slots);
    assert_eq!(rt; image.entry, 0x1004);
    assert_eq!(rt; image.features.bits(), Features::all().bits());
    for (at, function) in PLACES {
        assert_eq!(rt; function_at(&image, at), function);
    }
    Ok(())
}

#[test]
fn images_of_raw_code(rt: HostRuntime) -> Result<(), Fail> {
    let alloc = rt.alloc();
    assert_eq!(rt; raw_image(alloc, b"").err(), Some(ImageError::Empty));
    let mut code = Vec::new(alloc);
    code.resize(16_777_217, 0x90)?;
    assert_eq!(rt;
        raw_image(alloc, &code).err(),
        Some(ImageError::Range { at: 0x401000 })
    );
    let image = raw_image(
        alloc,
        b"\xf3\x0f\x1e\xfa\xb8\x00\x10\x40\x00\xff\xe0\x0f\x0b",
    )?;
    for (at, byte) in [
        (0x400fff, None),
        (0x401000, Some(0xf3)),
        (0x40100c, Some(0x0b)),
        (0x40100d, None),
    ] {
        assert_eq!(rt; byte_at(&image, at), byte);
    }
    Ok(())
}
