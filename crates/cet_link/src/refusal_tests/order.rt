//! Pairs of faults whose order decides.

use crate::refusal_tests::{
    F, GROUP, NEGATIVE, NOTE, NOWHERE, Row, SHARED, START, TEXT, Want, all_answer,
};
use crate::samples::{Sample, SectionRow};
use cet_elf::Class;
use cet_note::NoteError;
use std::test::Fail;

const ROWS: &[Row] = &[
    Row {
        inputs: &[
            Sample {
                sections: &[GROUP],
                symbols: &[],
                note: Some(NOTE),
            },
            Sample {
                sections: &[],
                symbols: &[],
                note: Some(b"\x04"),
            },
        ],
        want: Want::Note(1, NoteError::Cut { at: 0 }),
    },
    Row {
        inputs: &[
            Sample {
                sections: &[],
                symbols: &[SHARED],
                note: None,
            },
            Sample {
                sections: &[GROUP],
                symbols: &[],
                note: None,
            },
        ],
        want: Want::Common(b"c", 0),
    },
    Row {
        inputs: &[Sample {
            sections: &[GROUP],
            symbols: &[SHARED],
            note: None,
        }],
        want: Want::Group(0),
    },
    Row {
        inputs: &[Sample {
            sections: &[TEXT],
            symbols: &[F, SHARED, F],
            note: None,
        }],
        want: Want::Common(b"c", 0),
    },
    Row {
        inputs: &[Sample {
            sections: &[TEXT],
            symbols: &[F, F, SHARED],
            note: None,
        }],
        want: Want::Duplicate(b"f", 0, 0),
    },
    Row {
        inputs: &[
            Sample {
                sections: &[TEXT],
                symbols: &[F],
                note: None,
            },
            Sample {
                sections: &[TEXT, GROUP],
                symbols: &[F],
                note: None,
            },
        ],
        want: Want::Group(1),
    },
    Row {
        inputs: &[
            Sample {
                sections: &[TEXT],
                symbols: &[NOWHERE, F],
                note: None,
            },
            Sample {
                sections: &[TEXT],
                symbols: &[F],
                note: None,
            },
        ],
        want: Want::Duplicate(b"f", 0, 1),
    },
    Row {
        inputs: &[Sample {
            sections: &[TEXT],
            symbols: &[NOWHERE],
            note: None,
        }],
        want: Want::Undefined(b"nowhere", 0),
    },
    Row {
        inputs: &[Sample {
            sections: &[
                TEXT,
                SectionRow {
                    class: Class::Zero,
                    align: 1,
                    size: 16777217,
                    relocations: &[],
                },
            ],
            symbols: &[],
            note: None,
        }],
        want: Want::NoEntry,
    },
    Row {
        inputs: &[Sample {
            sections: &[
                NEGATIVE,
                SectionRow {
                    class: Class::Zero,
                    align: 1,
                    size: 16777217,
                    relocations: &[],
                },
            ],
            symbols: &[START],
            note: None,
        }],
        want: Want::TooLarge,
    },
];

#[test]
fn first_faults(rt: HostRuntime) -> Result<(), Fail> {
    assert!(rt; all_answer(rt.alloc(), ROWS)?);
    Ok(())
}
