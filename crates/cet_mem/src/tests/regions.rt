//! Where regions are placed and mapped beside others of each kind: at each bound and one page past it.
use crate::tests::{EDGE_WORD, KINDS, add_page};
use crate::{Kind, MapError, Memory, Pf, REGION_LIMIT};

/// A page that is a region, and ends where another such page begins.
const PAGE: u64 = 0x1_0000;

/// A region that mappings keep away from.
const MAPPED: u64 = 0x2_0000_0000;

/// The first address that no user has.
const USER_END: u64 = 0x8000_0000_0000;

const MAX: u64 = u64::MAX;

const OK: Result<(), MapError> = Ok(());

const ILLEGAL: Result<(), MapError> = Err(MapError::Illegal);

const WANT: Result<(), MapError> = Err(MapError::NoMemory);

/// A first address, a length, and the answer beside these two pages.
const PLACES: &[(u64, u64, Result<(), MapError>)] = &[
    // pages that meet none, and meet one, and both
    (0, 0x1000, OK),
    (0, PAGE, OK),
    (0, PAGE + 0x1000, ILLEGAL),
    (PAGE - 0x1000, 0x1000, OK),
    (PAGE - 0x1000, 0x2000, ILLEGAL),
    (PAGE - 0x1000, 0x3000, ILLEGAL),
    (PAGE - 0x1000, 0x4000, ILLEGAL),
    (PAGE, 0x1000, ILLEGAL),
    (PAGE, 0x2000, ILLEGAL),
    (PAGE + 0x1000, 0x1000, ILLEGAL),
    (PAGE + 0x1000, 0x2000, ILLEGAL),
    (PAGE + 0x2000, 0x1000, OK),
    // no whole pages
    (0x2_0001, 0x1000, ILLEGAL),
    (0x2_0800, 0x1000, ILLEGAL),
    (0x2_0fff, 0x1000, ILLEGAL),
    (0x2_0000, 0, ILLEGAL),
    (0x2_0000, 1, ILLEGAL),
    (0x2_0000, 0xfff, ILLEGAL),
    (0x2_0000, 0x1001, ILLEGAL),
    // the end of the user addresses, and of all
    (USER_END - 0x2000, 0x2000, OK),
    (USER_END - 0x2000, 0x3000, ILLEGAL),
    (USER_END - 0x1000, 0x1000, OK),
    (USER_END - 0x1000, 0x2000, ILLEGAL),
    (USER_END, 0x1000, ILLEGAL),
    (USER_END, 0, ILLEGAL),
    (2 * USER_END, 0x1000, ILLEGAL),
    (0x2_0000, USER_END - 0x1_f000, ILLEGAL),
    (0x2_0000, USER_END - 0x2_0000, WANT),
    (0x2_0000, REGION_LIMIT + 0x1000, WANT),
    (0x2_0000, MAX - 0xfff, ILLEGAL),
    (MAX - 0xfff, 0x1000, ILLEGAL),
    (MAX - 0xfff, 0x2000, ILLEGAL),
];

/// A first address, a length, and the answer beside a page at `MAPPED`, and one that ends 65,536 bytes below 2^32.
const MAPS: &[(u64, u64, Result<(), MapError>)] = &[
    // the first address, and the distance from a region below it
    (0, 0x1000, ILLEGAL),
    (0xffff_f000, 0x1000, ILLEGAL),
    (0xffff_f000, 0x2000, ILLEGAL),
    (0x1_0000_0000, 0x1000, OK),
    // the distance from a region above
    (MAPPED - 0x1_2000, 0x2000, OK),
    (MAPPED - 0x1_1000, 0x1000, OK),
    (MAPPED - 0x1_1000, 0x2000, ILLEGAL),
    (MAPPED - 0x1_0000, 0x1000, ILLEGAL),
    (MAPPED - 0x1000, 0x1000, ILLEGAL),
    (MAPPED - 0x1_1000, 0x10_0000, ILLEGAL),
    (MAPPED, 0x1000, ILLEGAL),
    // and from one below
    (MAPPED + 0x1000, 0x1000, ILLEGAL),
    (MAPPED + 0x1_0000, 0x1000, ILLEGAL),
    (MAPPED + 0x1_1000, 0x1000, OK),
    // no whole pages
    (0x3_0000_0001, 0x1000, ILLEGAL),
    (0x3_0000_0fff, 0x1000, ILLEGAL),
    (0x3_0000_0000, 0, ILLEGAL),
    (0x3_0000_0000, 0xfff, ILLEGAL),
    (0x3_0000_0000, 0x1001, ILLEGAL),
    (0x3_0000_0000, 0x1000, OK),
    // the end of the user addresses, and of all
    (USER_END - 0x1000, 0x1000, OK),
    (USER_END - 0x1000, 0x2000, ILLEGAL),
    (USER_END, 0x1000, ILLEGAL),
    (2 * USER_END, 0x1000, ILLEGAL),
    (0x3_0000_0000, REGION_LIMIT + 0x1000, WANT),
    (0x3_0000_0000, MAX - 0xfff, ILLEGAL),
    (MAX - 0xfff, 0x1000, ILLEGAL),
    (MAX - 0xffff, 0x1_0000, ILLEGAL),
];

#[test]
fn places_in_each_kind(rt: HostRuntime) {
    for kind in KINDS {
        for &(at, len, answer) in PLACES {
            let mut memory = Memory::new(rt.alloc());
            for page in [PAGE, PAGE + 0x1000] {
                assert_eq!(rt; add_page(&mut memory, page, kind), OK, "{page:#x}");
            }
            assert_eq!(rt; memory.place(at, len, kind), answer, "{at:#x} {len:#x}");
            if answer == OK {
                assert_eq!(rt; memory.held(at, 0x1000), Some(kind), "{at:#x} {len:#x}");
                assert_eq!(rt; memory.load(at, 8), Ok(0), "{at:#x} {len:#x}");
            }
            for page in [PAGE, PAGE + 0x1000] {
                assert_eq!(rt; memory.held(page, 0x1000), Some(kind), "{at:#x} {len:#x}");
                assert_eq!(rt; memory.load(page, 8), Ok(EDGE_WORD), "{at:#x} {len:#x}");
            }
        }
    }
}

#[test]
fn maps_in_each_kind(rt: HostRuntime) {
    for kind in KINDS {
        for &(at, len, answer) in MAPS {
            let mut memory = Memory::new(rt.alloc());
            for page in [MAPPED, 0xfffe_f000] {
                assert_eq!(rt; add_page(&mut memory, page, kind), OK, "{page:#x}");
            }
            assert_eq!(rt;
                memory.legal(at, len),
                answer != ILLEGAL,
                "{at:#x} {len:#x}"
            );
            assert_eq!(rt; memory.map(at, len, kind), answer, "{at:#x} {len:#x}");
            if answer == OK {
                assert_eq!(rt; memory.held(at, 0x1000), Some(kind), "{at:#x} {len:#x}");
                assert_eq!(rt; memory.load(at, 8), Ok(0), "{at:#x} {len:#x}");
            }
            for page in [MAPPED, 0xfffe_f000] {
                assert_eq!(rt; memory.held(page, 0x1000), Some(kind), "{at:#x} {len:#x}");
                assert_eq!(rt; memory.load(page, 8), Ok(EDGE_WORD), "{at:#x} {len:#x}");
            }
        }
    }
}

#[test]
fn the_distance_is_kept_below_the_first_address(rt: HostRuntime) {
    for kind in KINDS {
        let mut memory = Memory::new(rt.alloc());
        assert_eq!(rt; memory.place(0xffff_0000, 0x1000, kind), OK, "{kind:?}");
        assert!(rt; !memory.legal(0x1_0000_0000, 0x1000), "{kind:?}");
        assert!(rt; memory.legal(0x1_0000_1000, 0x1000), "{kind:?}");
    }
}

#[test]
fn no_region_at_first(rt: HostRuntime) {
    for a in [0, PAGE, USER_END - 0x1000, MAX] {
        let fault = Pf { addr: a };
        let mut memory = Memory::new(rt.alloc());
        assert_eq!(rt; memory.load(a, 1), Err(fault), "{a:#x}");
        assert_eq!(rt; memory.shadow_load(a), Err(fault), "{a:#x}");
        assert_eq!(rt; memory.store(a, 1, 0), Err(fault), "{a:#x}");
        assert_eq!(rt; memory.shadow_store(a, 0), Err(fault), "{a:#x}");
        assert_eq!(rt; memory.fill(a, b"\x00"), Err(fault), "{a:#x}");
        assert_eq!(rt; memory.held(a, 1), None, "{a:#x}");
        assert_eq!(rt; memory.fetch(a, &mut [0; 15]), 0, "{a:#x}");
    }
}
