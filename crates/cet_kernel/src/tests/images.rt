//! Segments, and what they are loaded to.
use crate::LoadError::{Place, Shared};
use crate::tests::Act::{Held, Word};
use crate::tests::{PairRow, SegmentRow};
use cet_mem::Kind::{Code, Read, Write};

pub static SEGMENTS: &[SegmentRow] = &[
    // the lowest pages, and the highest
    (0, 4096, Read, b"", Some(Place { at: 0 }), &[]),
    (0xfff, 1, Read, b"", Some(Place { at: 0xfff }), &[]),
    (0xfff, 2, Code, b"", Some(Place { at: 0xfff }), &[]),
    (
        0x1000,
        1,
        Read,
        b"a",
        None,
        &[
            Held(0x1000, 4096, Some(Read)),
            Held(0xfff, 1, None),
            Held(0x2000, 1, None),
            Word(0x1000, 0x61),
        ],
    ),
    (
        0xfffe_f000,
        4096,
        Write,
        b"",
        None,
        &[
            Held(0xfffe_f000, 4096, Some(Write)),
            Held(0xffff_0000, 1, None),
        ],
    ),
    (
        0xfffe_ffff,
        1,
        Write,
        b"a",
        None,
        &[Word(0xfffe_fff8, 0x6100_0000_0000_0000)],
    ),
    (
        0xfffe_ffff,
        2,
        Write,
        b"",
        Some(Place { at: 0xfffe_ffff }),
        &[],
    ),
    (
        0xffff_0000,
        1,
        Write,
        b"",
        Some(Place { at: 0xffff_0000 }),
        &[],
    ),
    (
        0x7fff_ffff_ffff,
        1,
        Read,
        b"",
        Some(Place {
            at: 0x7fff_ffff_ffff,
        }),
        &[],
    ),
    // bytes at their place, and zeros elsewhere in the pages
    (
        0x1fff,
        2,
        Write,
        b"ab",
        None,
        &[
            Held(0x1000, 8192, Some(Write)),
            Held(0x1000, 8193, None),
            Word(0x1ff0, 0),
            Word(0x1ff8, 0x6100_0000_0000_0000),
            Word(0x2000, 0x62),
            Word(0x2008, 0),
        ],
    ),
    (
        0x40_1002,
        8,
        Code,
        b"abc",
        None,
        &[
            Held(0x40_1000, 4096, Some(Code)),
            Word(0x40_1000, 0x63_6261_0000),
            Word(0x40_1008, 0),
        ],
    ),
    (
        0x10000,
        16_777_216,
        Read,
        b"abcdefgh",
        None,
        &[
            Held(0x10000, 16_777_216, Some(Read)),
            Word(0x10000, 0x6867_6665_6463_6261),
            Word(0x100_fff8, 0),
        ],
    ),
];

pub static PAIRS: &[PairRow] = &[
    (
        (0x1000, 1),
        (0x2000, 1),
        None,
        &[
            Held(0x1000, 4096, Some(Read)),
            Held(0x2000, 4096, Some(Write)),
            Word(0x1000, 0x61),
            Word(0x2000, 0x62),
        ],
    ),
    (
        (0x2fff, 1),
        (0x1fff, 1),
        None,
        &[
            Held(0x2000, 4096, Some(Read)),
            Held(0x1000, 4096, Some(Write)),
        ],
    ),
    (
        (0x1000, 1),
        (0x1fff, 1),
        Some(Shared {
            a: 0x1000,
            b: 0x1fff,
        }),
        &[],
    ),
    (
        (0x1fff, 1),
        (0x1000, 1),
        Some(Shared {
            a: 0x1fff,
            b: 0x1000,
        }),
        &[],
    ),
    (
        (0x1000, 4097),
        (0x2fff, 1),
        Some(Shared {
            a: 0x1000,
            b: 0x2fff,
        }),
        &[],
    ),
    ((0x1000, 0x10000), (0x11000, 1), None, &[]),
    (
        (0x4800, 1),
        (0x1000, 0x3001),
        Some(Shared {
            a: 0x4800,
            b: 0x1000,
        }),
        &[],
    ),
    // out of place goes before shared, the first one counts
    ((0x1000, 1), (0x800, 1), Some(Place { at: 0x800 }), &[]),
    (
        (0xfffe_f000, 1),
        (0xfffe_f001, 0x1000),
        Some(Place { at: 0xfffe_f001 }),
        &[],
    ),
    ((0x900, 1), (0x800, 1), Some(Place { at: 0x900 }), &[]),
];
