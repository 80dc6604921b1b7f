//! Sums that do not fit their fields (psABI, "Relocation Types").

use crate::refusal_tests::{
    ABSOLUTE, FUNC, GLOBAL, NEGATIVE, NONE, NOWHERE, Row, START, TEXT, UNDEFINED, Want, all_answer,
    answers, object, section,
};
use crate::samples::{Sample, SectionRow};
use cet_base::NoMemory;
use cet_elf::{Class, Object, Rela, RelaList, SectionList};
use std::alloc::Global;
use std::test::Fail;

// A sum below 0 in a field that is extended by zeros, at 4, and then at 0.
const TWICE: SectionRow = SectionRow {
    class: Class::Read,
    align: 1,
    size: 8,
    relocations: &[
        Rela {
            offset: 4,
            kind: 10,
            symbol: 0,
            addend: -5_242_880,
        },
        Rela {
            offset: 0,
            kind: 10,
            symbol: 0,
            addend: -5_242_880,
        },
    ],
};

const ROWS: &[Row] = &[
    // By input and section, and in a section as they are given.
    Row {
        inputs: &[Sample {
            sections: &[NEGATIVE],
            symbols: &[START],
            note: None,
        }],
        want: Want::Overflow(0, 0, 1),
    },
    Row {
        inputs: &[Sample {
            sections: &[TEXT, TWICE],
            symbols: &[START],
            note: None,
        }],
        want: Want::Overflow(0, 1, 4),
    },
    Row {
        inputs: &[
            Sample {
                sections: &[NEGATIVE, TWICE],
                symbols: &[START],
                note: None,
            },
            Sample {
                sections: &[NEGATIVE],
                symbols: &[NOWHERE, (b"nowhere", NONE, GLOBAL, ABSOLUTE, 0)],
                note: None,
            },
        ],
        want: Want::Overflow(0, 0, 1),
    },
    Row {
        inputs: &[
            Sample {
                sections: &[TEXT],
                symbols: &[START],
                note: None,
            },
            Sample {
                sections: &[TEXT, NEGATIVE],
                symbols: &[(b"_start", FUNC, GLOBAL, UNDEFINED, 0)],
                note: None,
            },
        ],
        want: Want::Overflow(1, 1, 1),
    },
];

#[test]
fn overflows(rt: HostRuntime) -> Result<(), Fail> {
    assert!(rt; all_answer(rt.alloc(), ROWS)?);
    Ok(())
}

// The type of a relocation, the value of its symbol, its addend, and whether the sum fits. The place is 0x401000.
type Bound = (u32, u64, i64, bool);

const BOUNDS: &[Bound] = &[
    (0, u64::MAX, i64::MAX, true),
    (1, u64::MAX, 1, true),
    (1, 0, i64::MIN, true),
    (24, u64::MAX, i64::MAX, true),
    (24, 0, i64::MIN, true),
    (10, 0, 0, true),
    (10, 0xffff_ffff, 0, true),
    (10, 0x1_0000_0000, 0, false),
    (10, 0x1_0000_0000, -1, true),
    (10, 0, -1, false),
    (10, u64::MAX, 1, false),
    (11, 0x7fff_ffff, 0, true),
    (11, 0x8000_0000, 0, false),
    (11, 0x8000_0000, -1, true),
    (11, 0, -0x8000_0000, true),
    (11, 0, -0x8000_0001, false),
    (11, u64::MAX, 0, false),
    (2, 0x8040_0fff, 0, true),
    (2, 0x8040_1000, 0, false),
    (2, 0x401000, -0x8000_0000, true),
    (2, 0x401000, -0x8000_0001, false),
    (2, 0x1_0040_0fff, 0, false),
    (4, 0x8040_0fff, 0, true),
    (4, 0x8040_1000, 0, false),
    (4, 0, -0x7fbf_f000, true),
    (4, 0, -0x7fbf_f001, false),
];

// An object with one relocation, at the start of its code.
fn relocated(alloc: Global, bound: &Bound) -> Result<Object, NoMemory> {
    let mut relocations = RelaList::new(alloc);
    relocations.push(Rela {
        offset: 0,
        kind: bound.0,
        symbol: 1,
        addend: bound.2,
    })?;
    let mut sections = SectionList::new(alloc);
    sections.push(section(alloc, Class::Code, 1, 8, relocations)?)?;
    object(alloc, sections, bound.1)
}

#[test]
fn sums_at_their_bounds(rt: HostRuntime) -> Result<(), Fail> {
    for bound in BOUNDS {
        let inputs = vec![in rt.alloc(); relocated(rt.alloc(), bound)?]?;
        let want = if bound.3 {
            Want::Nothing
        } else {
            Want::Overflow(0, 0, 0)
        };
        assert!(rt; answers(rt.alloc(), &inputs, &want));
    }
    Ok(())
}
