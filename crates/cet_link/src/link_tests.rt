//! Whole links, with the addresses and bytes that follow from the gABI and the psABI ("Relocation Types") for the places of sections.

use crate::link;
use crate::samples::{Sample, SectionRow, SymbolRow, are_consistent, objects_of};
use cet_elf::{Bind, Class, Exec, ExecSegment, ExecSymbol, Object, Rela, SymbolKind, SymbolPlace};
use std::alloc::Global;
use std::test::Fail;

// A segment: where it starts, its size, its flags and its stored bytes.
struct SegmentRow {
    start: u64,
    size: u64,
    flags: u32,
    bytes: &'static [u8],
}

// A symbol of the executable: its name, its kind, its binding and its value.
struct ValueRow {
    name: &'static [u8],
    kind: SymbolKind,
    bind: Bind,
    value: u64,
}

struct Row {
    inputs: &'static [Sample],
    entry: u64,
    segments: &'static [SegmentRow],
    symbols: &'static [ValueRow],
    notes: Option<&'static [u8]>,
}

const START: SymbolRow = (
    b"_start",
    SymbolKind::Func,
    Bind::Global,
    SymbolPlace::In(0),
    1,
);

// Its symbols: `_start` behind a byte, `w` weak, `l` local in the zeros, `abs` an address, `u` weak and defined nowhere.
const FIRST: Sample = Sample {
    sections: &[
        SectionRow {
            class: Class::Code,
            align: 1,
            size: 3,
            relocations: &[],
        },
        SectionRow {
            class: Class::Read,
            align: 16,
            size: 4,
            relocations: &[],
        },
        SectionRow {
            class: Class::Write,
            align: 4096,
            size: 40,
            relocations: &[
                Rela {
                    offset: 0,
                    kind: 1,
                    symbol: 1,
                    addend: 5,
                },
                Rela {
                    offset: 8,
                    kind: 24,
                    symbol: 3,
                    addend: -4,
                },
                Rela {
                    offset: 16,
                    kind: 10,
                    symbol: 2,
                    addend: 0,
                },
                Rela {
                    offset: 20,
                    kind: 11,
                    symbol: 4,
                    addend: -1,
                },
                Rela {
                    offset: 24,
                    kind: 4,
                    symbol: 0,
                    addend: -4,
                },
                Rela {
                    offset: 28,
                    kind: 2,
                    symbol: 1,
                    addend: 0,
                },
                // Over the last two bytes of the field before.
                Rela {
                    offset: 30,
                    kind: 10,
                    symbol: 3,
                    addend: 0,
                },
                Rela {
                    offset: 36,
                    kind: 0,
                    symbol: 0,
                    addend: 7,
                },
            ],
        },
        SectionRow {
            class: Class::Zero,
            align: 16,
            size: 5,
            relocations: &[],
        },
    ],
    symbols: &[
        START,
        (b"w", SymbolKind::None, Bind::Weak, SymbolPlace::In(1), 2),
        (b"l", SymbolKind::Object, Bind::Local, SymbolPlace::In(3), 4),
        (
            b"abs",
            SymbolKind::None,
            Bind::Global,
            SymbolPlace::Absolute,
            0x1234,
        ),
        (
            b"u",
            SymbolKind::None,
            Bind::Weak,
            SymbolPlace::Undefined,
            0,
        ),
    ],
    note: None,
};

// Its symbols: `w` global, `l` local, the symbol of a section, and `_start` of the other input.
const SECOND: Sample = Sample {
    sections: &[
        SectionRow {
            class: Class::Code,
            align: 16,
            size: 8,
            relocations: &[Rela {
                offset: 1,
                kind: 2,
                symbol: 3,
                addend: -4,
            }],
        },
        SectionRow {
            class: Class::Read,
            align: 1,
            size: 1,
            relocations: &[],
        },
    ],
    symbols: &[
        (b"w", SymbolKind::Func, Bind::Global, SymbolPlace::In(0), 4),
        (b"l", SymbolKind::None, Bind::Local, SymbolPlace::In(1), 0),
        (
            b"s",
            SymbolKind::Section,
            Bind::Local,
            SymbolPlace::In(0),
            0,
        ),
        (
            b"_start",
            SymbolKind::None,
            Bind::Global,
            SymbolPlace::Undefined,
            0,
        ),
    ],
    note: None,
};

// Both features, and IBT alone.
const BOTH: &[u8] = b"\x04\0\0\0\x10\0\0\0\x05\0\0\0GNU\0\x02\0\0\xc0\x04\0\0\0\x03\0\0\0\0\0\0\0";

const IBT: &[u8] = b"\x04\0\0\0\x10\0\0\0\x05\0\0\0GNU\0\x02\0\0\xc0\x04\0\0\0\x01\0\0\0\0\0\0\0";

// The entry and no more, with a note and without one.
const MAIN_CODE: &[SectionRow] = &[SectionRow {
    class: Class::Code,
    align: 1,
    size: 2,
    relocations: &[],
}];

const MAIN_SYMBOLS: &[SymbolRow] = &[(
    b"_start",
    SymbolKind::Func,
    Bind::Global,
    SymbolPlace::In(0),
    0,
)];

const MAIN: Sample = Sample {
    sections: MAIN_CODE,
    symbols: MAIN_SYMBOLS,
    note: Some(BOTH),
};

const SILENT_MAIN: Sample = Sample {
    sections: MAIN_CODE,
    symbols: MAIN_SYMBOLS,
    note: None,
};

// A note and no more.
const CLAIMS_BOTH: Sample = Sample {
    sections: &[],
    symbols: &[],
    note: Some(BOTH),
};

const CLAIMS_IBT: Sample = Sample {
    sections: &[],
    symbols: &[],
    note: Some(IBT),
};

const CLAIMS_NOTHING: Sample = Sample {
    sections: &[],
    symbols: &[],
    note: None,
};

const MAIN_SEGMENT: SegmentRow = SegmentRow {
    start: 0x401000,
    size: 2,
    flags: 5,
    bytes: b"\0\0",
};

const BOTH_SEGMENT: SegmentRow = SegmentRow {
    start: 0x402000,
    size: 32,
    flags: 4,
    bytes: BOTH,
};

const IBT_SEGMENT: SegmentRow = SegmentRow {
    start: 0x402000,
    size: 32,
    flags: 4,
    bytes: IBT,
};

const MAIN_SYMBOL: ValueRow = ValueRow {
    name: b"_start",
    kind: SymbolKind::Func,
    bind: Bind::Global,
    value: 0x401000,
};

const ROWS: &[Row] = &[
    // Every type of relocation; `w` is the global one, 0x401014; local symbols that are named alike.
    Row {
        inputs: &[FIRST, SECOND],
        entry: 0x401001,
        segments: &[
            SegmentRow {
                start: 0x401000,
                size: 0x18,
                flags: 5,
                bytes: b"\0\0\0\0\0\0\0\0\0\0\0\0\0\0\0\0\0\xec\xff\xff\xff\0\0\0",
            },
            SegmentRow {
                start: 0x402000,
                size: 5,
                flags: 4,
                bytes: b"\0\0\0\0\0",
            },
            SegmentRow {
                start: 0x403000,
                size: 0x35,
                flags: 6,
                bytes: b"\x19\x10\x40\0\0\0\0\0\x28\xe2\xbf\xff\xff\xff\xff\xff\x34\x30\x40\0\xff\xff\xff\xff\xe5\xdf\xff\xff\xf8\xdf\x34\x12\0\0\0\0\0\0\0\0",
            },
        ],
        symbols: &[
            ValueRow {
                name: b"l",
                kind: SymbolKind::Object,
                bind: Bind::Local,
                value: 0x403034,
            },
            ValueRow {
                name: b"l",
                kind: SymbolKind::None,
                bind: Bind::Local,
                value: 0x402004,
            },
            ValueRow {
                name: b"_start",
                kind: SymbolKind::Func,
                bind: Bind::Global,
                value: 0x401001,
            },
            ValueRow {
                name: b"w",
                kind: SymbolKind::Func,
                bind: Bind::Global,
                value: 0x401014,
            },
            ValueRow {
                name: b"abs",
                kind: SymbolKind::None,
                bind: Bind::Global,
                value: 0x1234,
            },
        ],
        notes: None,
    },
    // A merged note stands first in what is read; the first of two weak definitions counts.
    Row {
        inputs: &[
            Sample {
                sections: &[
                    SectionRow {
                        class: Class::Read,
                        align: 1,
                        size: 2,
                        relocations: &[],
                    },
                    SectionRow {
                        class: Class::Code,
                        align: 1,
                        size: 4,
                        relocations: &[],
                    },
                ],
                symbols: &[(
                    b"_start",
                    SymbolKind::None,
                    Bind::Weak,
                    SymbolPlace::In(1),
                    0,
                )],
                note: Some(BOTH),
            },
            Sample {
                sections: &[SectionRow {
                    class: Class::Code,
                    align: 1,
                    size: 4,
                    relocations: &[],
                }],
                symbols: &[(
                    b"_start",
                    SymbolKind::None,
                    Bind::Weak,
                    SymbolPlace::In(0),
                    0,
                )],
                note: Some(IBT),
            },
        ],
        entry: 0x401000,
        segments: &[
            SegmentRow {
                start: 0x401000,
                size: 8,
                flags: 5,
                bytes: b"\0\0\0\0\0\0\0\0",
            },
            SegmentRow {
                start: 0x402000,
                size: 34,
                flags: 4,
                bytes: b"\x04\0\0\0\x10\0\0\0\x05\0\0\0GNU\0\x02\0\0\xc0\x04\0\0\0\x01\0\0\0\0\0\0\0\0\0",
            },
        ],
        symbols: &[ValueRow {
            name: b"_start",
            kind: SymbolKind::None,
            bind: Bind::Weak,
            value: 0x401000,
        }],
        notes: Some(IBT),
    },
    // Zeros alone, in classes that all start at one address.
    Row {
        inputs: &[Sample {
            sections: &[SectionRow {
                class: Class::Zero,
                align: 16,
                size: 16,
                relocations: &[],
            }],
            symbols: &[START],
            note: None,
        }],
        entry: 0x401001,
        segments: &[SegmentRow {
            start: 0x401000,
            size: 16,
            flags: 6,
            bytes: b"",
        }],
        symbols: &[ValueRow {
            name: b"_start",
            kind: SymbolKind::Func,
            bind: Bind::Global,
            value: 0x401001,
        }],
        notes: None,
    },
    // Five inputs. All claim both features; one claims one of them; one claims none; all claim none.
    Row {
        inputs: &[MAIN, CLAIMS_BOTH, CLAIMS_BOTH, CLAIMS_BOTH, CLAIMS_BOTH],
        entry: 0x401000,
        segments: &[MAIN_SEGMENT, BOTH_SEGMENT],
        symbols: &[MAIN_SYMBOL],
        notes: Some(BOTH),
    },
    Row {
        inputs: &[MAIN, CLAIMS_BOTH, CLAIMS_BOTH, CLAIMS_IBT, CLAIMS_BOTH],
        entry: 0x401000,
        segments: &[MAIN_SEGMENT, IBT_SEGMENT],
        symbols: &[MAIN_SYMBOL],
        notes: Some(IBT),
    },
    Row {
        inputs: &[MAIN, CLAIMS_BOTH, CLAIMS_BOTH, CLAIMS_BOTH, CLAIMS_NOTHING],
        entry: 0x401000,
        segments: &[MAIN_SEGMENT],
        symbols: &[MAIN_SYMBOL],
        notes: None,
    },
    Row {
        inputs: &[
            SILENT_MAIN,
            CLAIMS_NOTHING,
            CLAIMS_NOTHING,
            CLAIMS_NOTHING,
            CLAIMS_NOTHING,
        ],
        entry: 0x401000,
        segments: &[MAIN_SEGMENT],
        symbols: &[MAIN_SYMBOL],
        notes: None,
    },
];

fn is_segment(segment: &ExecSegment, want: &SegmentRow) -> bool {
    segment.start == want.start
        && segment.size == want.size
        && segment.flags == want.flags
        && segment.bytes.as_slice() == want.bytes
}

fn are_segments(segments: &[ExecSegment], want: &[SegmentRow]) -> bool {
    segments.len() == want.len() && segments.iter().zip(want).all(|(s, w)| is_segment(s, w))
}

fn is_symbol(symbol: &ExecSymbol, want: &ValueRow) -> bool {
    symbol.name.as_slice() == want.name
        && symbol.kind == want.kind
        && symbol.bind == want.bind
        && symbol.value == want.value
}

fn are_symbols(symbols: &[ExecSymbol], want: &[ValueRow]) -> bool {
    symbols.len() == want.len() && symbols.iter().zip(want).all(|(s, w)| is_symbol(s, w))
}

fn is_note(exec: &Exec, want: Option<&[u8]>) -> bool {
    match (&exec.notes, want) {
        (Some(note), Some(bytes)) => note.as_slice() == bytes,
        (None, None) => true,
        _ => false,
    }
}

fn is_wanted(exec: &Exec, want: &Row) -> bool {
    exec.entry == want.entry
        && are_segments(exec.segments.as_slice(), want.segments)
        && are_symbols(exec.symbols.as_slice(), want.symbols)
        && is_note(exec, want.notes)
}

// Whether the objects are inputs of a link that gives what is wanted.
fn links(alloc: Global, inputs: &[Object], want: &Row) -> bool {
    if inputs.len() > 100 || !are_consistent(inputs) {
        return false;
    }
    match link(alloc, inputs, "_start") {
        Ok(exec) => is_wanted(&exec, want),
        Err(_) => false,
    }
}

#[test]
fn whole_links(rt: HostRuntime) -> Result<(), Fail> {
    for row in ROWS {
        let inputs = objects_of(rt.alloc(), row.inputs)?;
        assert!(rt; links(rt.alloc(), &inputs, row));
    }
    Ok(())
}
