use super::*;
use bitflags::Flags;
use byteorder::{ByteOrder, LittleEndian};
use std::alloc::Global;
use std::process::Abort;
use std::test::*;

// What gcc writes for an object compiled with -fcf-protection=full: one property 0xc0000002 with the bits 3.
const FULL: [u8; 32] = [
    4, 0, 0, 0, 16, 0, 0, 0, 5, 0, 0, 0, 0x47, 0x4e, 0x55, 0, 2, 0, 0, 0xc0, 4, 0, 0, 0, 3, 0, 0,
    0, 0, 0, 0, 0,
];

// The fault that reading finds.
fn fault(alloc: Global, bytes: &[u8]) -> Option<NoteError> {
    read_note(alloc, bytes).err()
}

// The first three pairs.
fn pairs(props: &Props) -> [Option<(u32, u32)>; 3] {
    [props.pair(0), props.pair(1), props.pair(2)]
}

// The note with one property, or none where the type is 0.
fn one(rt: &impl Abort, alloc: Global, kind: u32, bits: u32) -> Props {
    let mut props = Props::new(alloc);
    if is_word_type(kind) {
        props.set(kind, bits).expect(rt, "there is memory");
    }
    props
}

#[test]
fn every_prefix_is_cut_at_its_last_field(rt: HostRuntime) {
    for len in 1..32 {
        let at = (len / 4 * 4) as u64;
        assert_eq!(rt;
            fault(rt.alloc(), &FULL[..len]),
            Some(NoteError::Cut { at })
        );
    }
    assert_eq!(rt; fault(rt.alloc(), &FULL[..0]), None);
    assert_eq!(rt; fault(rt.alloc(), &FULL), None);
}

#[test]
fn each_field_has_its_fault(rt: HostRuntime) {
    let table = [
        (0, 5, Some(NoteError::Name { at: 0 })),
        (4, 12, Some(NoteError::Size { at: 4 })),
        (8, 1, Some(NoteError::Kind { at: 8 })),
        (12, 0x0055_4e48, Some(NoteError::Name { at: 12 })),
        (20, 5, Some(NoteError::Size { at: 20 })),
        (20, 8, Some(NoteError::Size { at: 20 })),
        (20, 12, Some(NoteError::Size { at: 20 })),
        // The descriptor is too short for the property, is empty, or goes on past the end.
        (4, 8, Some(NoteError::Size { at: 20 })),
        (4, 0, Some(NoteError::Size { at: 16 })),
        (4, 24, Some(NoteError::Cut { at: 32 })),
        // A type outside the three ranges, and padding that is not zero.
        (16, 0xc000_0001, None),
        (16, 0xc001_8000, None),
        (28, 7, None),
    ];
    for (at, value, expected) in table {
        let mut note = FULL;
        if at <= 28 {
            LittleEndian::write_u32(&mut note[at..], value);
        }
        assert_eq!(rt; fault(rt.alloc(), &note), expected);
    }
}

// Two properties, 0xc0000002 with the bits 3 and one of the type `kind` with the bits 1, and a size of the descriptor,
// which is 32.
fn two(size: u32, kind: u32) -> [u8; 48] {
    let mut note = [0; 48];
    note[..32].copy_from_slice(&FULL);
    LittleEndian::write_u32(&mut note[4..], size);
    LittleEndian::write_u32(&mut note[32..], kind);
    LittleEndian::write_u32(&mut note[36..], 4);
    LittleEndian::write_u32(&mut note[40..], 1);
    note
}

#[test]
fn types_ascend(rt: HostRuntime) -> Result<(), Fail> {
    let table = [
        (0xc000_0002, Some(NoteError::Twice { at: 32 })),
        (0xc000_0001, Some(NoteError::Order { at: 32 })),
        (0, Some(NoteError::Order { at: 32 })),
        (0xc000_0003, None),
        (0xffff_ffff, None),
    ];
    for (kind, expected) in table {
        assert_eq!(rt; fault(rt.alloc(), &two(32, kind)), expected);
    }
    // A type outside the three ranges is passed over, and bytes after the note are not.
    let props = read_note(rt.alloc(), &two(32, 0xc000_8000))?;
    assert_eq!(rt;
        pairs(&props),
        [Some((0xc000_0002, 3)), Some((0xc000_8000, 1)), None]
    );
    let props = read_note(rt.alloc(), &two(32, 0xc001_8000))?;
    assert_eq!(rt; pairs(&props), [Some((0xc000_0002, 3)), None, None]);
    assert_eq!(rt;
        fault(rt.alloc(), &two(16, 0xc000_8000)),
        Some(NoteError::Size { at: 32 })
    );
    Ok(())
}

#[test]
fn words_and_features(rt: HostRuntime) -> Result<(), Fail> {
    let props = read_note(rt.alloc(), &FULL)?;
    assert_eq!(rt; pairs(&props), [Some((0xc000_0002, 3)), None, None]);
    assert_eq!(rt;
        write_note(rt.alloc(), &props)
            .ok()
            .ok_or("memory")?
            .as_slice(),
        FULL.as_slice()
    );
    assert!(rt;
        write_note(rt.alloc(), &Props::new(rt.alloc()))
            .ok()
            .ok_or("memory")?
            .is_empty()
    );
    for (kind, bits, ibt, shstk) in [
        (0xc000_0002, 3, true, true),
        (0xc000_0002, 1, true, false),
        (0xc000_0002, 2, false, true),
        (0xc000_0002, 0xffff_fffc, false, false),
        (0xc000_0003, 3, false, false),
    ] {
        let claimed = features(&one(&rt, rt.alloc(), kind, bits));
        assert_eq!(rt; claimed.contains(Features::IBT), ibt);
        assert_eq!(rt; claimed.contains(Features::SHSTK), shstk);
        assert!(rt; claimed.bits() <= 3);
    }
    Ok(())
}

#[test]
fn merges(rt: HostRuntime) -> Result<(), Fail> {
    // The type and bits of two inputs, where a type 0 stands for no note, and the pairs of their merge.
    for (a, b, merged) in [
        (
            (0xc000_0002, 3),
            (0xc000_0002, 3),
            [Some((0xc000_0002, 3)), None, None],
        ),
        (
            (0xc000_0002, 3),
            (0xc000_0002, 1),
            [Some((0xc000_0002, 1)), None, None],
        ),
        ((0xc000_0002, 2), (0xc000_0002, 1), [None, None, None]),
        ((0xc000_0002, 3), (0, 0), [None, None, None]),
        (
            (0xc000_8002, 1),
            (0, 0),
            [Some((0xc000_8002, 1)), None, None],
        ),
        (
            (0xc000_8002, 1),
            (0xc000_8002, 6),
            [Some((0xc000_8002, 7)), None, None],
        ),
        ((0xc000_8002, 0), (0xc000_8002, 0), [None, None, None]),
        ((0xc001_0002, 1), (0, 0), [None, None, None]),
        (
            (0xc001_0002, 1),
            (0xc001_0002, 2),
            [Some((0xc001_0002, 3)), None, None],
        ),
        (
            (0xc001_0002, 0),
            (0xc001_0002, 0),
            [Some((0xc001_0002, 0)), None, None],
        ),
        (
            (0xc000_ffff, 4),
            (0xc000_8000, 2),
            [Some((0xc000_8000, 2)), Some((0xc000_ffff, 4)), None],
        ),
    ] {
        let inputs = [
            one(&rt, rt.alloc(), a.0, a.1),
            one(&rt, rt.alloc(), b.0, b.1),
        ];
        let found = merge(rt.alloc(), &inputs).ok().ok_or("memory")?;
        assert_eq!(rt; pairs(&found), merged);
    }
    assert_eq!(rt;
        pairs(&merge(rt.alloc(), &[]).ok().ok_or("memory")?),
        [None, None, None]
    );
    Ok(())
}
