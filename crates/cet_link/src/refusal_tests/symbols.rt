//! Names that are defined twice, or nowhere.

use crate::refusal_tests::{
    ABSOLUTE, CODE, F, FUNC, GLOBAL, LOCAL, NONE, NOWHERE, Row, START, TEXT, UNDEFINED, WEAK, Want,
    all_answer,
};
use crate::samples::Sample;
use std::test::Fail;

const ROWS: &[Row] = &[
    // Second definitions.
    Row {
        inputs: &[Sample {
            sections: &[TEXT],
            symbols: &[START, F, F],
            note: None,
        }],
        want: Want::Duplicate(b"f", 0, 0),
    },
    Row {
        inputs: &[
            Sample {
                sections: &[TEXT],
                symbols: &[START, F],
                note: None,
            },
            Sample {
                sections: &[TEXT],
                symbols: &[],
                note: None,
            },
            Sample {
                sections: &[TEXT],
                symbols: &[F],
                note: None,
            },
        ],
        want: Want::Duplicate(b"f", 0, 2),
    },
    Row {
        inputs: &[
            Sample {
                sections: &[TEXT],
                symbols: &[START, (b"f", FUNC, WEAK, CODE, 0)],
                note: None,
            },
            Sample {
                sections: &[TEXT],
                symbols: &[F, (b"f", FUNC, WEAK, CODE, 0)],
                note: None,
            },
        ],
        want: Want::Nothing,
    },
    Row {
        inputs: &[
            Sample {
                sections: &[TEXT],
                symbols: &[
                    START,
                    (b"f", FUNC, LOCAL, CODE, 0),
                    (b"f", FUNC, LOCAL, CODE, 4),
                ],
                note: None,
            },
            Sample {
                sections: &[TEXT],
                symbols: &[F, (b"f", FUNC, LOCAL, CODE, 0)],
                note: None,
            },
        ],
        want: Want::Nothing,
    },
    Row {
        inputs: &[
            Sample {
                sections: &[TEXT],
                symbols: &[START, (b"", NONE, GLOBAL, ABSOLUTE, 1)],
                note: None,
            },
            Sample {
                sections: &[TEXT],
                symbols: &[(b"", NONE, GLOBAL, ABSOLUTE, 2)],
                note: None,
            },
        ],
        want: Want::Duplicate(b"", 0, 1),
    },
    // Undefined symbols.
    Row {
        inputs: &[Sample {
            sections: &[TEXT],
            symbols: &[START, NOWHERE],
            note: None,
        }],
        want: Want::Undefined(b"nowhere", 0),
    },
    Row {
        inputs: &[
            Sample {
                sections: &[TEXT],
                symbols: &[START, (b"x", NONE, LOCAL, UNDEFINED, 0)],
                note: None,
            },
            Sample {
                sections: &[TEXT],
                symbols: &[(b"x", NONE, GLOBAL, ABSOLUTE, 0)],
                note: None,
            },
        ],
        want: Want::Undefined(b"x", 0),
    },
    Row {
        inputs: &[Sample {
            sections: &[TEXT],
            symbols: &[START, (b"x", NONE, WEAK, UNDEFINED, 0)],
            note: None,
        }],
        want: Want::Nothing,
    },
    Row {
        inputs: &[
            Sample {
                sections: &[TEXT],
                symbols: &[START, NOWHERE],
                note: None,
            },
            Sample {
                sections: &[],
                symbols: &[(b"nowhere", NONE, WEAK, ABSOLUTE, 0)],
                note: None,
            },
        ],
        want: Want::Nothing,
    },
    Row {
        inputs: &[
            Sample {
                sections: &[TEXT],
                symbols: &[START, NOWHERE],
                note: None,
            },
            Sample {
                sections: &[],
                symbols: &[(b"nowhere", NONE, LOCAL, ABSOLUTE, 0)],
                note: None,
            },
        ],
        want: Want::Undefined(b"nowhere", 0),
    },
    Row {
        inputs: &[
            Sample {
                sections: &[TEXT],
                symbols: &[START],
                note: None,
            },
            Sample {
                sections: &[],
                symbols: &[(b"y", NONE, GLOBAL, UNDEFINED, 0), NOWHERE],
                note: None,
            },
            Sample {
                sections: &[],
                symbols: &[NOWHERE],
                note: None,
            },
        ],
        want: Want::Undefined(b"y", 1),
    },
];

#[test]
fn names_defined_twice_or_nowhere(rt: HostRuntime) -> Result<(), Fail> {
    assert!(rt; all_answer(rt.alloc(), ROWS)?);
    Ok(())
}
