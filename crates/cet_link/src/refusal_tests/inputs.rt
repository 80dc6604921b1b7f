//! Faults of one input by itself: a section group, a note that cannot be read, a common symbol.

use crate::refusal_tests::{
    COMMON, GROUP, LOCAL, NOTE, OBJECT, Row, SHARED, START, TEXT, WEAK, Want, all_answer,
};
use crate::samples::Sample;
use cet_note::NoteError;
use std::test::Fail;

const ROWS: &[Row] = &[
    // Groups and notes.
    Row {
        inputs: &[Sample {
            sections: &[TEXT, GROUP],
            symbols: &[START],
            note: None,
        }],
        want: Want::Group(0),
    },
    Row {
        inputs: &[
            Sample {
                sections: &[TEXT],
                symbols: &[START],
                note: Some(NOTE),
            },
            Sample {
                sections: &[],
                symbols: &[],
                note: Some(b"\x04"),
            },
        ],
        want: Want::Note(1, NoteError::Cut { at: 0 }),
    },
    Row {
        inputs: &[
            Sample {
                sections: &[TEXT],
                symbols: &[START],
                note: Some(b""),
            },
            Sample {
                sections: &[],
                symbols: &[],
                note: Some(b"\x03\0\0\0"),
            },
        ],
        want: Want::Note(1, NoteError::Name { at: 0 }),
    },
    // Common symbols, of each binding.
    Row {
        inputs: &[Sample {
            sections: &[TEXT],
            symbols: &[START, SHARED],
            note: None,
        }],
        want: Want::Common(b"c", 0),
    },
    Row {
        inputs: &[Sample {
            sections: &[TEXT],
            symbols: &[START, (b"c", OBJECT, LOCAL, COMMON, 8)],
            note: None,
        }],
        want: Want::Common(b"c", 0),
    },
    Row {
        inputs: &[
            Sample {
                sections: &[TEXT],
                symbols: &[START],
                note: None,
            },
            Sample {
                sections: &[],
                symbols: &[(b"c", OBJECT, WEAK, COMMON, 8)],
                note: None,
            },
        ],
        want: Want::Common(b"c", 1),
    },
];

#[test]
fn faults_of_an_input(rt: HostRuntime) -> Result<(), Fail> {
    assert!(rt; all_answer(rt.alloc(), ROWS)?);
    Ok(())
}
