//! The definition of the entry.

use crate::refusal_tests::{
    ABSOLUTE, CODE, FUNC, GLOBAL, LOCAL, NONE, OBJECT, Row, START, TEXT, UNDEFINED, WEAK, Want,
    all_answer,
};
use crate::samples::Sample;
use cet_elf::SymbolKind;
use std::test::Fail;

const ROWS: &[Row] = &[
    Row {
        inputs: &[Sample {
            sections: &[TEXT],
            symbols: &[START],
            note: None,
        }],
        want: Want::Nothing,
    },
    Row {
        inputs: &[],
        want: Want::NoEntry,
    },
    Row {
        inputs: &[Sample {
            sections: &[TEXT],
            symbols: &[(b"_start", FUNC, LOCAL, CODE, 0)],
            note: None,
        }],
        want: Want::NoEntry,
    },
    Row {
        inputs: &[Sample {
            sections: &[TEXT],
            symbols: &[(b"_start", FUNC, WEAK, UNDEFINED, 0)],
            note: None,
        }],
        want: Want::NoEntry,
    },
    Row {
        inputs: &[Sample {
            sections: &[TEXT],
            symbols: &[(b"_start", OBJECT, GLOBAL, CODE, 0)],
            note: None,
        }],
        want: Want::NoEntry,
    },
    Row {
        inputs: &[Sample {
            sections: &[TEXT],
            symbols: &[(b"_start", SymbolKind::Section, GLOBAL, CODE, 0)],
            note: None,
        }],
        want: Want::NoEntry,
    },
    Row {
        inputs: &[Sample {
            sections: &[TEXT],
            symbols: &[(b"_start", NONE, WEAK, ABSOLUTE, 7)],
            note: None,
        }],
        want: Want::Nothing,
    },
    // A global definition counts before a weak one, and the first of two weak ones.
    Row {
        inputs: &[Sample {
            sections: &[TEXT],
            symbols: &[(b"_start", OBJECT, WEAK, CODE, 0), START],
            note: None,
        }],
        want: Want::Nothing,
    },
    Row {
        inputs: &[
            Sample {
                sections: &[TEXT],
                symbols: &[(b"_start", OBJECT, GLOBAL, CODE, 0)],
                note: None,
            },
            Sample {
                sections: &[TEXT],
                symbols: &[(b"_start", FUNC, WEAK, CODE, 0)],
                note: None,
            },
        ],
        want: Want::NoEntry,
    },
    Row {
        inputs: &[
            Sample {
                sections: &[TEXT],
                symbols: &[(b"_start", OBJECT, WEAK, CODE, 0)],
                note: None,
            },
            Sample {
                sections: &[TEXT],
                symbols: &[(b"_start", FUNC, WEAK, CODE, 0)],
                note: None,
            },
        ],
        want: Want::NoEntry,
    },
    Row {
        inputs: &[
            Sample {
                sections: &[TEXT],
                symbols: &[(b"_start", FUNC, WEAK, CODE, 0)],
                note: None,
            },
            Sample {
                sections: &[TEXT],
                symbols: &[(b"_start", OBJECT, WEAK, CODE, 0)],
                note: None,
            },
        ],
        want: Want::Nothing,
    },
];

#[test]
fn entries(rt: HostRuntime) -> Result<(), Fail> {
    assert!(rt; all_answer(rt.alloc(), ROWS)?);
    Ok(())
}
