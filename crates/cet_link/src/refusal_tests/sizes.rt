//! Classes of sections at the limit of their size.

use crate::refusal_tests::{Want, answers, object, section};
use cet_base::NoMemory;
use cet_elf::{Class, Object, RelaList, SectionList};
use std::alloc::Global;
use std::test::Fail;

// The sections behind the code, by class, alignment and size, and whether they fit. Zeros stand behind stored bytes, and a section without bytes can
// move the end.
const SIZES: &[(&[(Class, u64, u64)], bool)] = &[
    (&[(Class::Zero, 1, 16_777_215)], true),
    (&[(Class::Zero, 1, 16_777_216)], true),
    (&[(Class::Zero, 1, 16_777_217)], false),
    (
        &[(Class::Write, 1, 1), (Class::Zero, 4096, 16_773_120)],
        true,
    ),
    (
        &[(Class::Zero, 4096, 16_773_121), (Class::Write, 1, 1)],
        false,
    ),
    (
        &[(Class::Zero, 1, 16_773_121), (Class::Zero, 4096, 0)],
        true,
    ),
    (
        &[
            (Class::Zero, 1, 16_773_121),
            (Class::Zero, 4096, 0),
            (Class::Zero, 1, 1),
        ],
        false,
    ),
    (&[(Class::Zero, 1, u64::MAX)], false),
    (
        &[
            (Class::Zero, 1, 1),
            (Class::Zero, 1, u64::MAX),
            (Class::Zero, 1, u64::MAX),
        ],
        false,
    ),
];

// An object of these sections.
fn sized(alloc: Global, rows: &[(Class, u64, u64)]) -> Result<Object, NoMemory> {
    let mut sections = SectionList::new(alloc);
    for row in rows {
        sections.push(section(alloc, row.0, row.1, row.2, RelaList::new(alloc))?)?;
    }
    object(alloc, sections, 0)
}

#[test]
fn sizes_at_their_bounds(rt: HostRuntime) -> Result<(), Fail> {
    for row in SIZES {
        let inputs = vec![in rt.alloc(); sized(rt.alloc(), row.0)?]?;
        let want = if row.1 { Want::Nothing } else { Want::TooLarge };
        assert!(rt; answers(rt.alloc(), &inputs, &want));
    }
    Ok(())
}

// An object whose stored bytes, with the zeros between them, take 16,773,120 bytes and then `last`.
fn paged(alloc: Global, last: u64) -> Result<Object, NoMemory> {
    let mut sections = SectionList::new(alloc);
    for _ in 0..4095 {
        sections.push(section(alloc, Class::Write, 4096, 1, RelaList::new(alloc))?)?;
    }
    sections.push(section(alloc, Class::Write, 4096, last, RelaList::new(alloc))?)?;
    object(alloc, sections, 0)
}

// One byte less than the limit, and one more, in a class of stored bytes.
#[test]
fn stored_sizes_at_their_bounds(rt: HostRuntime) -> Result<(), Fail> {
    for (last, want) in [(4095, Want::Nothing), (4097, Want::TooLarge)] {
        let inputs = vec![in rt.alloc(); paged(rt.alloc(), last)?]?;
        assert!(rt; answers(rt.alloc(), &inputs, &want));
    }
    Ok(())
}
