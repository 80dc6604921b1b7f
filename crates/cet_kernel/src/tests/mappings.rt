//! mmap and map_shadow_stack.
use crate::tests::Act::{Call, Fresh, Held, Word};
use crate::tests::{EINVAL, ENOMEM, EOPNOTSUPP, Row};
use cet_mem::Kind::{Shadow, Write};

const ALL_ONES: u64 = u64::MAX;

pub static ROWS: &[Row] = &[
    // the arguments of mmap
    (
        3,
        b"",
        &[
            Call(
                0,
                0x1_0000_0000,
                &[9, 4096, 4096, 3, 0x22, ALL_ONES, 0],
                EINVAL,
            ),
            Call(0, 0x1_0000_0000, &[9, 0, 0, 3, 0x22, ALL_ONES, 0], EINVAL),
            Call(
                0,
                0x1_0000_0000,
                &[9, 0, 16_777_217, 3, 0x22, ALL_ONES, 0],
                EINVAL,
            ),
            Call(
                0,
                0x1_0000_0000,
                &[9, 0, ALL_ONES, 3, 0x22, ALL_ONES, 0],
                EINVAL,
            ),
            Call(
                0,
                0x1_0000_0000,
                &[9, 0, 4096, 1, 0x22, ALL_ONES, 0],
                EINVAL,
            ),
            Call(
                0,
                0x1_0000_0000,
                &[9, 0, 4096, 7, 0x22, ALL_ONES, 0],
                EINVAL,
            ),
            Call(0, 0x1_0000_0000, &[9, 0, 4096, 3, 0x2, ALL_ONES, 0], EINVAL),
            Call(
                0,
                0x1_0000_0000,
                &[9, 0, 4096, 3, 0x20000, ALL_ONES, 0],
                EINVAL,
            ),
            Call(
                0,
                0x1_0000_0000,
                &[9, 0, 4096, 3, 0x22, 0xffff_ffff, 0],
                EINVAL,
            ),
            Call(
                0,
                0x1_0000_0000,
                &[9, 0, 4096, 3, 0x22, ALL_ONES, 4096],
                EINVAL,
            ),
            // arguments before the place
            Call(0, 0, &[9, 0, 4096, 1, 0x22, ALL_ONES, 0], EINVAL),
            Fresh(0x1_0000_0000),
            Held(0x1_0000_0000, 1, None),
            // less than a page is a page
            Call(
                0,
                0x1_0000_0000,
                &[9, 0, 1, 3, 0x20022, ALL_ONES, 0],
                0x1_0000_0000,
            ),
            Held(0x1_0000_0000, 4096, Some(Write)),
            Held(0x1_0000_0000, 4097, None),
            Word(0x1_0000_0ff8, 0),
            Fresh(0x1_0001_1000),
            Call(
                0,
                0x1_0001_1000,
                &[9, 0, 16_777_216, 3, 0x22, ALL_ONES, 0],
                0x1_0001_1000,
            ),
            Held(0x1_0001_1000, 16_777_216, Some(Write)),
            Fresh(0x1_0102_1000),
        ],
    ),
    // where a mapping may go: whole pages, from 2^32 on, up to 2^47, 65,536 bytes from each region
    (
        2,
        b"",
        &[
            Call(
                0,
                0x1_0000_0800,
                &[9, 0, 4096, 3, 0x22, ALL_ONES, 0],
                ENOMEM,
            ),
            Call(0, 0xffff_f000, &[9, 0, 4096, 3, 0x22, ALL_ONES, 0], ENOMEM),
            Call(0, 0, &[9, 0, 4096, 3, 0x22, ALL_ONES, 0], ENOMEM),
            Call(
                0,
                0x8000_0000_0000,
                &[9, 0, 4096, 3, 0x22, ALL_ONES, 0],
                ENOMEM,
            ),
            Call(
                0,
                0x7fff_ffff_f000,
                &[9, 0, 4097, 3, 0x22, ALL_ONES, 0],
                ENOMEM,
            ),
            Call(
                0,
                0xffff_ffff_ffff_f000,
                &[9, 0, 4096, 3, 0x22, ALL_ONES, 0],
                ENOMEM,
            ),
            Call(
                0,
                0x7ffe_0010_f000,
                &[9, 0, 4096, 3, 0x22, ALL_ONES, 0],
                ENOMEM,
            ),
            Call(
                0,
                0x7ffd_ffff_0000,
                &[9, 0, 4096, 3, 0x22, ALL_ONES, 0],
                ENOMEM,
            ),
            Call(
                0,
                0x7ffd_0001_f000,
                &[9, 0, 4096, 3, 0x22, ALL_ONES, 0],
                ENOMEM,
            ),
            Call(
                0,
                0x7ffc_ffff_0000,
                &[9, 0, 4096, 3, 0x22, ALL_ONES, 0],
                ENOMEM,
            ),
            Fresh(0x1_0000_0000),
            Call(
                0,
                0x7ffe_0011_0000,
                &[9, 0, 4096, 3, 0x22, ALL_ONES, 0],
                0x7ffe_0011_0000,
            ),
            Fresh(0x7ffe_0012_1000),
            Call(
                0,
                0x7ffd_fffe_f000,
                &[9, 0, 4096, 3, 0x22, ALL_ONES, 0],
                0x7ffd_fffe_f000,
            ),
            // a mapping below another leaves fresh
            Fresh(0x7ffe_0012_1000),
            Call(
                0,
                0x7fff_ffff_f000,
                &[9, 0, 4096, 3, 0x22, ALL_ONES, 0],
                0x7fff_ffff_f000,
            ),
            Fresh(0x8000_0001_0000),
        ],
    ),
    // mappings beside one another
    (
        3,
        b"",
        &[
            Call(
                0,
                0x1_0000_0000,
                &[9, 0, 65536, 3, 0x22, ALL_ONES, 0],
                0x1_0000_0000,
            ),
            Fresh(0x1_0002_0000),
            Call(
                0,
                0x1_0001_0000,
                &[9, 0, 65536, 3, 0x22, ALL_ONES, 0],
                ENOMEM,
            ),
            Call(
                0,
                0x1_0001_f000,
                &[9, 0, 65536, 3, 0x22, ALL_ONES, 0],
                ENOMEM,
            ),
            Fresh(0x1_0002_0000),
            Call(
                0,
                0x1_0002_0000,
                &[9, 0, 65536, 3, 0x22, ALL_ONES, 0],
                0x1_0002_0000,
            ),
            Fresh(0x1_0004_0000),
            Call(0, 0x1_0004_0000, &[453, 0, 4096, 1], 0x1_0004_0000),
            Word(0x1_0004_0ff8, 0x1_0004_1001),
            Held(0x1_0004_0000, 4096, Some(Shadow)),
            Held(0x1_0004_0000, 4097, None),
            Fresh(0x1_0005_1000),
            Call(0, 0x1_0005_1000, &[453, 0, 1_048_576, 0], 0x1_0005_1000),
            Word(0x1_0015_0ff8, 0),
            Held(0x1_0005_1000, 1_048_576, Some(Shadow)),
            Fresh(0x1_0016_1000),
        ],
    ),
    // the arguments of map_shadow_stack
    (
        2,
        b"",
        &[
            Call(0, 0x1_0000_0000, &[453, 0x1_0000_0000, 4096, 1], EINVAL),
            Call(0, 0x1_0000_0000, &[453, 0, 0, 1], EINVAL),
            Call(0, 0x1_0000_0000, &[453, 0, 4095, 1], EINVAL),
            Call(0, 0x1_0000_0000, &[453, 0, 4104, 1], EINVAL),
            Call(0, 0x1_0000_0000, &[453, 0, 1_052_672, 1], EINVAL),
            Call(0, 0x1_0000_0000, &[453, 0, 4096, 2], EINVAL),
            Call(0, 0, &[453, 0, 4096, 3], EINVAL),
            Call(0, 0, &[453, 0, 4096, 1], ENOMEM),
            Call(0, 0x7ffd_0001_f000, &[453, 0, 4096, 0], ENOMEM),
            Fresh(0x1_0000_0000),
            Held(0x1_0000_0000, 1, None),
            Call(0, 0x7ffd_0002_0000, &[453, 0, 4096, 1], 0x7ffd_0002_0000),
            Word(0x7ffd_0002_0ff8, 0x7ffd_0002_1001),
        ],
    ),
    // without shadow stacks
    (
        1,
        b"",
        &[
            Call(0, 0x1_0000_0000, &[453, 0, 4096, 1], EOPNOTSUPP),
            Call(0, 0, &[453, 1, 2, 3], EOPNOTSUPP),
            Held(0x1_0000_0000, 1, None),
            // no main shadow stack is in the way
            Call(
                0,
                0x7ffd_0000_0000,
                &[9, 0, 65536, 3, 0x22, ALL_ONES, 0],
                0x7ffd_0000_0000,
            ),
            Held(0x7ffd_0000_0000, 65536, Some(Write)),
        ],
    ),
];
