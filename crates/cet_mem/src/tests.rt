//! Each public call with ample memory, at the bounds of regions of each kind.
ghost use Rattle.std.specs.Prelude.{◌<◌, length};

mod kinds;
mod regions;

use crate::{Kind, MapError, Memory, Pf, REGION_LIMIT};
use std::alloc::Global;

// Each region of the tests has a page, and begins and ends with these bytes. The numbers below are those of Python's `struct`.
const EDGE: &[u8; 8] = b"\x01\x23\x45\x67\x89\xab\xcd\xef";

/// The word that they are.
const EDGE_WORD: u64 = 0xefcd_ab89_6745_2301;

const KINDS: [Kind; 4] = [Kind::Code, Kind::Read, Kind::Write, Kind::Shadow];

const CODE: u64 = 0x1000;

const READ: u64 = 0x2000;

const WRITE: u64 = 0x3000;

const SHADOW: u64 = 0x7fff_ffff_f000;

/// A second shadow stack, which ends where the first one begins.
const BELOW: u64 = SHADOW - 0x1000;

const STORED: u64 = 0x1122_3344_5566_7788;

fn memory(alloc: Global) -> Result<Memory, MapError> {
    let mut memory = Memory::new(alloc);
    for (at, kind) in [
        (WRITE, Kind::Write),
        (CODE, Kind::Code),
        (SHADOW, Kind::Shadow),
        (READ, Kind::Read),
    ] {
        add_page(&mut memory, at, kind)?;
    }
    Ok(memory)
}

fn add_page(memory: &mut Memory, at: u64, kind: Kind) -> Result<(), MapError> {
    memory.place(at, 4096, kind)?;
    let first = memory.fill(at, EDGE);
    let last = memory.fill(at | 0xff8, EDGE);
    if first.is_err() || last.is_err() {
        return Err(MapError::Illegal);
    }
    Ok(())
}

fn load(memory: &Memory, a: u64, n: u8) -> Result<u64, Pf> {
    match n {
        1 => memory.load(a, 1),
        4 => memory.load(a, 4),
        _ => memory.load(a, 8),
    }
}

fn store(memory: &mut Memory, a: u64, n: u8) -> Result<(), Pf> {
    match n {
        1 => memory.store(a, 1, STORED),
        4 => memory.store(a, 4, STORED),
        _ => memory.store(a, 8, STORED),
    }
}

/// What `store` writes.
fn stored_bytes(n: u8) -> &'static [u8]
    ensures { 0 < length result.now }
{
    match n {
        1 => b"\x88".as_slice(),
        4 => b"\x88\x77\x66\x55".as_slice(),
        _ => b"\x88\x77\x66\x55\x44\x33\x22\x11".as_slice(),
    }
}

fn held(memory: &Memory, a: u64, n: u8) -> Option<Kind> {
    match n {
        1 => memory.held(a, 1),
        4 => memory.held(a, 4),
        _ => memory.held(a, 8),
    }
}

fn is_held(memory: &Memory, a: u64, n: u8, kind: Kind) -> bool {
    match n {
        1 => memory.is_held(a, 1, kind),
        4 => memory.is_held(a, 4, kind),
        _ => memory.is_held(a, 8, kind),
    }
}

// The columns: an address, a width, and what holds the bytes there with the number that they are.
#[test]
fn accesses(rt: HostRuntime) {
    for (a, n, found) in [
        (CODE - 1, 1, None),
        (CODE, 1, Some((Kind::Code, 0x01))),
        (CODE, 4, Some((Kind::Code, 0x6745_2301))),
        (CODE, 8, Some((Kind::Code, 0xefcd_ab89_6745_2301))),
        (CODE + 0xff8, 8, Some((Kind::Code, 0xefcd_ab89_6745_2301))),
        (CODE + 0xffc, 4, Some((Kind::Code, 0xefcd_ab89))),
        (CODE + 0xfff, 1, Some((Kind::Code, 0xef))),
        (CODE + 0xff9, 8, None),
        (CODE + 0xffd, 4, None),
        (READ, 1, Some((Kind::Read, 0x01))),
        (READ + 0xffc, 4, Some((Kind::Read, 0xefcd_ab89))),
        (READ + 0xffd, 4, None),
        (WRITE, 8, Some((Kind::Write, 0xefcd_ab89_6745_2301))),
        (WRITE + 0xff8, 8, Some((Kind::Write, 0xefcd_ab89_6745_2301))),
        (WRITE + 0xffc, 4, Some((Kind::Write, 0xefcd_ab89))),
        (WRITE + 0xfff, 1, Some((Kind::Write, 0xef))),
        (WRITE + 0xff9, 8, None),
        (WRITE + 0x1000, 1, None),
        (SHADOW, 8, Some((Kind::Shadow, 0xefcd_ab89_6745_2301))),
        (SHADOW + 0xfff, 1, Some((Kind::Shadow, 0xef))),
        (SHADOW + 0xff9, 8, None),
        (SHADOW + 0x1000, 1, None),
        (u64::MAX - 7, 8, None),
        (u64::MAX - 6, 8, None),
        (u64::MAX, 1, None),
        (u64::MAX, 4, None),
    ] {
        let mut memory = memory(rt.alloc()).expect(&rt, "memory");
        let fault = Pf { addr: a };
        let number = found.map(|(_, number)| number).ok_or(fault);
        let kind = found.map(|(kind, _)| kind);
        assert_eq!(rt; load(&memory, a, n), number, "{a:#x}");
        assert_eq!(rt; held(&memory, a, n), kind, "{a:#x}");
        for of in [Kind::Code, Kind::Read, Kind::Write, Kind::Shadow] {
            assert_eq!(rt; is_held(&memory, a, n, of), kind == Some(of), "{a:#x}");
        }
        let stored = store(&mut memory, a, n);
        let after = if kind == Some(Kind::Write) {
            assert_eq!(rt; stored, Ok(()), "{a:#x}");
            Ok(match n {
                1 => 0x88,
                4 => 0x5566_7788,
                _ => STORED,
            })
        } else {
            assert_eq!(rt; stored, Err(fault), "{a:#x}");
            number
        };
        assert_eq!(rt; load(&memory, a, n), after, "{a:#x}");
    }
}

// The columns: an address, and the word there where one Shadow region holds it.
#[test]
fn shadow_words(rt: HostRuntime) {
    for (a, word) in [
        (0, None),
        (CODE, None),
        (CODE + 0xff8, None),
        (READ, None),
        (READ + 0xff8, None),
        (WRITE, None),
        (WRITE + 0xff8, None),
        (BELOW - 8, None),
        (BELOW - 1, None),
        (BELOW, Some(0xefcd_ab89_6745_2301)),
        (BELOW + 1, Some(0x00ef_cdab_8967_4523)),
        (BELOW + 7, Some(0xef)),
        (BELOW + 8, Some(0)),
        (BELOW + 0xff7, Some(0xcdab_8967_4523_0100)),
        (BELOW + 0xff8, Some(0xefcd_ab89_6745_2301)),
        (BELOW + 0xff9, None),
        (SHADOW - 4, None),
        (SHADOW - 1, None),
        (SHADOW, Some(0xefcd_ab89_6745_2301)),
        (SHADOW + 4, Some(0xefcd_ab89)),
        (SHADOW + 0xff8, Some(0xefcd_ab89_6745_2301)),
        (SHADOW + 0xff9, None),
        (SHADOW + 0xfff, None),
        (SHADOW + 0x1000, None),
        (u64::MAX - 7, None),
        (u64::MAX - 6, None),
        (u64::MAX, None),
    ] {
        let mut memory = memory(rt.alloc()).expect(&rt, "memory");
        assert_eq!(rt; memory.place(BELOW, 4096, Kind::Shadow), Ok(()), "{a:#x}");
        assert_eq!(rt; memory.fill(BELOW, EDGE), Ok(()), "{a:#x}");
        assert_eq!(rt; memory.fill(BELOW + 0xff8, EDGE), Ok(()), "{a:#x}");
        let fault = Pf { addr: a };
        let loaded = memory.load(a, 8);
        assert_eq!(rt; memory.shadow_load(a), word.ok_or(fault), "{a:#x}");
        let (stored, after) = if word.is_some() {
            (Ok(()), Ok(STORED))
        } else {
            (Err(fault), loaded)
        };
        assert_eq!(rt; memory.shadow_store(a, STORED), stored, "{a:#x}");
        assert_eq!(rt; memory.load(a, 8), after, "{a:#x}");
        let shadow = word.map(|_| STORED).ok_or(fault);
        assert_eq!(rt; memory.shadow_load(a), shadow, "{a:#x}");
    }
}

// The columns: an address, how many bytes are fetched from there, and the first and the last of them.
#[test]
fn fetches(rt: HostRuntime) {
    let memory = memory(rt.alloc()).expect(&rt, "memory");
    for (a, count, first, last) in [
        (CODE, 15, 0x01, 0x00),
        (CODE + 0xff1, 15, 0x00, 0xef),
        (CODE + 0xff8, 8, 0x01, 0xef),
        (CODE + 0xfff, 1, 0xef, 0xef),
        (CODE - 1, 0, 0xcc, 0xcc),
        (READ, 0, 0xcc, 0xcc),
        (WRITE, 0, 0xcc, 0xcc),
        (SHADOW, 0, 0xcc, 0xcc),
        (u64::MAX, 0, 0xcc, 0xcc),
    ] {
        let mut bytes = [0xcc; 15];
        assert_eq!(rt; memory.fetch(a, &mut bytes), count, "{a:#x}");
        assert_eq!(rt; bytes[0], first, "{a:#x}");
        assert_eq!(rt;
            bytes
                .get((count as usize).wrapping_sub(1))
                .copied()
                .unwrap_or(0xcc),
            last,
            "{a:#x}"
        );
    }
}

// The columns: a first address, a length, and the answer.
#[test]
fn places(rt: HostRuntime) {
    let mut memory = memory(rt.alloc()).expect(&rt, "memory");
    let illegal = Err(MapError::Illegal);
    let want = Err(MapError::NoMemory);
    for (at, len, answer) in [
        (0x5001, 0x1000, illegal),
        (0x5000, 0x1001, illegal),
        (0x5000, 0, illegal),
        (CODE, 0x1000, illegal),
        (0, 0x2000, illegal),
        (WRITE, 0x2000, illegal),
        (0, 0x10_0000, illegal),
        (SHADOW + 0x1000, 0x1000, illegal),
        (SHADOW - 0x1000, 0x3000, illegal),
        (0x10_0000, u64::MAX - 0xfff, illegal),
        (u64::MAX - 0xfff, 0x1000, illegal),
        (0, REGION_LIMIT + 0x1000, illegal),
        (0x1_0000_0000, 1 << 47, illegal),
        (0x1_0000_0000, REGION_LIMIT + 0x1000, want),
        (0x1_0000_0000, 1 << 46, want),
        (0, 0x1000, Ok(())),
        (WRITE + 0x1000, 0x1000, Ok(())),
        (SHADOW - 0x1000, 0x1000, Ok(())),
        (0, 0x1000, illegal),
        (0x20_0000, 0x3000, Ok(())),
        (0x20_1000, 0x1000, illegal),
        (0x20_2000, 0x2000, illegal),
        (0x1f_f000, 0x5000, illegal),
        (0x20_3000, 0x1000, Ok(())),
    ] {
        assert_eq!(rt; memory.place(at, len, Kind::Write), answer, "{at:#x}");
    }
    for (a, number) in [(0, 0), (WRITE + 0x1ff8, 0), (READ, 0xefcd_ab89_6745_2301)] {
        assert_eq!(rt; memory.load(a, 8), Ok(number), "{a:#x}");
    }
    assert_eq!(rt;
        memory.fill(CODE + 0xff9, EDGE),
        Err(Pf { addr: CODE + 0xff9 })
    );
    memory.regions_are_disjoint();
}

// The columns: a first address, a length, and whether one region holds so many bytes there.
#[test]
fn pieces(rt: HostRuntime) {
    let mut memory = memory(rt.alloc()).expect(&rt, "memory");
    for (a, n, found) in [
        (CODE, 0x1000, true),
        (CODE, 0x1001, false),
        (READ + 0xfff, 1, true),
        (CODE - 1, 2, false),
        (SHADOW + 0xff8, 9, false),
        (u64::MAX, 1, false),
    ] {
        assert_eq!(rt; memory.bytes_at(a, n).is_some(), found, "{a:#x}");
    }
    let last = memory
        .bytes_at(WRITE + 0xff8, 8)
        .map(|bytes| bytes == EDGE.as_slice());
    assert_eq!(rt; last, Some(true));
    for (a, stored) in [
        (WRITE + 0xffd, Ok(())),
        (
            WRITE + 0xffe,
            Err(Pf {
                addr: WRITE + 0xffe,
            }),
        ),
        (READ, Err(Pf { addr: READ })),
        (SHADOW, Err(Pf { addr: SHADOW })),
    ] {
        assert_eq!(rt; memory.store_bytes(a, b"\x0a\x0b\x0c"), stored, "{a:#x}");
    }
    assert_eq!(rt; memory.load(WRITE + 0xff8, 8), Ok(0x0c0b_0a89_6745_2301));
}

// The columns: a first address, a length, and whether a system call may map them.
#[test]
fn mappings(rt: HostRuntime) {
    for (at, len, legal) in [
        (0x1_0000_0000, 0x1000, true),
        (0x1_0000_0000, 0x10_0000, true),
        (0xffff_f000, 0x1000, false),
        (0xffff_f000, 0x2000, false),
        (0x5000, 0x1000, false),
        (0, 0x1000, false),
        (0x1_0000_0001, 0x1000, false),
        (0x1_0000_0000, 0x1001, false),
        (0x1_0000_0000, 0, false),
        (SHADOW - 0x11000, 0x1000, true),
        (SHADOW - 0x10000, 0x1000, false),
        (SHADOW - 0x11000, 0x2000, false),
        (SHADOW - 0x12000, 0x2000, true),
        (SHADOW, 0x1000, false),
        (SHADOW + 0x1000, 0x1000, false),
        (u64::MAX - 0xfff, 0x1000, false),
        (u64::MAX - 0xffff, 0x1_0000, false),
        (0x1_0000_0000, u64::MAX - 0xfff, false),
    ] {
        let mut memory = memory(rt.alloc()).expect(&rt, "memory");
        assert_eq!(rt; memory.legal(at, len), legal, "{at:#x}");
        let mapped = if legal {
            Ok(())
        } else {
            Err(MapError::Illegal)
        };
        assert_eq!(rt; memory.map(at, len, Kind::Write), mapped, "{at:#x}");
        if legal {
            assert_eq!(rt; memory.held(at, 0x1000), Some(Kind::Write), "{at:#x}");
            assert_eq!(rt; memory.load(at, 8), Ok(0), "{at:#x}");
        }
    }
}

// The columns: a first address, a length, and the answer to a mapping beside those before it.
#[test]
fn mappings_in_turn(rt: HostRuntime) {
    let mut memory = Memory::new(rt.alloc());
    let illegal = Err(MapError::Illegal);
    for (at, len, answer) in [
        (0x7fff_ffff_f000, 0x2000, illegal),
        (0x7fff_ffff_f000, 0x1000, Ok(())),
        (0xffff_f000, 0x1000, illegal),
        (0x1_0000_0000, 0x3000, Ok(())),
        (0x1_0000_0000, 0x3000, illegal),
        (0x1_0000_3000, 0x1000, illegal),
        (0x1_0001_2000, 0x1000, illegal),
        (0x1_0001_3000, 0x1000, Ok(())),
        (0x1_0003_5000, 0x1000, Ok(())),
        (0x1_0002_4000, 0x2000, illegal),
        (0x1_0002_3000, 0x1000, illegal),
        (0x1_0002_4000, 0x1000, Ok(())),
        (
            0x1_0100_0000,
            REGION_LIMIT + 0x1000,
            Err(MapError::NoMemory),
        ),
        (0x1_0100_0000, 0x1000, Ok(())),
    ] {
        assert_eq!(rt; memory.map(at, len, Kind::Shadow), answer, "{at:#x}");
    }
    // `place` keeps no such distance
    assert_eq!(rt; memory.place(0x1_0000_3000, 0x1000, Kind::Write), Ok(()));
}
