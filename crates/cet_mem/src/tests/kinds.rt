//! Each access at the first byte of a region, at its last one and past it, where another region begins there and where none does.
use crate::Kind::{Code, Read, Shadow, Write};
use crate::tests::{EDGE_WORD, KINDS, STORED, add_page, held, is_held, load, store, stored_bytes};
use crate::{Kind, MapError, Memory, Pf};
use std::alloc::Global;

const FIRST: u64 = 0x1_0000;

/// Where the first region ends.
const SECOND: u64 = 0x1_1000;

/// Where the second region ends.
const END: u64 = 0x1_2000;

const MAX: u64 = u64::MAX;

/// An address, a width, and the start of the region that holds the bytes there with the number that they are.
const ACCESSES: &[(u64, u8, Option<(u64, u64)>)] = &[
    (FIRST - 1, 1, None),
    (FIRST - 1, 4, None),
    (FIRST - 1, 8, None),
    (FIRST - 3, 4, None),
    (FIRST - 7, 8, None),
    (FIRST, 1, Some((FIRST, 0x01))),
    (FIRST, 4, Some((FIRST, 0x6745_2301))),
    (FIRST, 8, Some((FIRST, EDGE_WORD))),
    (SECOND - 1, 1, Some((FIRST, 0xef))),
    (SECOND - 1, 4, None),
    (SECOND - 1, 8, None),
    (SECOND - 3, 4, None),
    (SECOND - 4, 4, Some((FIRST, 0xefcd_ab89))),
    (SECOND - 4, 8, None),
    (SECOND - 7, 8, None),
    (SECOND - 8, 8, Some((FIRST, EDGE_WORD))),
    (SECOND, 1, Some((SECOND, 0x01))),
    (SECOND, 4, Some((SECOND, 0x6745_2301))),
    (SECOND, 8, Some((SECOND, EDGE_WORD))),
    (END - 1, 1, Some((SECOND, 0xef))),
    (END - 1, 4, None),
    (END - 1, 8, None),
    (END - 3, 4, None),
    (END - 4, 4, Some((SECOND, 0xefcd_ab89))),
    (END - 7, 8, None),
    (END - 8, 8, Some((SECOND, EDGE_WORD))),
    (END, 1, None),
    (END, 4, None),
    (END, 8, None),
    (MAX, 1, None),
    (MAX, 4, None),
    (MAX, 8, None),
    (MAX - 2, 4, None),
    (MAX - 3, 4, None),
    (MAX - 6, 8, None),
    (MAX - 7, 8, None),
];

/// An address, a length, and the start of the region that holds so many bytes there. The last ones end at 2^64 or past it.
const LENGTHS: &[(u64, u64, Option<u64>)] = &[
    (FIRST - 1, 0x1001, None),
    (FIRST, 0x1000, Some(FIRST)),
    (FIRST, 0x1001, None),
    (FIRST, 0x2000, None),
    (FIRST + 1, 0xfff, Some(FIRST)),
    (FIRST + 1, 0x1000, None),
    (SECOND - 1, 2, None),
    (SECOND - 1, 0x1001, None),
    (SECOND, 0x1000, Some(SECOND)),
    (SECOND, 0x1001, None),
    (END - 1, 2, None),
    (FIRST, MAX, None),
    (FIRST, MAX - 0xffff, None),
    (FIRST + 16, MAX, None),
    (SECOND, MAX - 0xfff, None),
    (SECOND + 16, MAX - 15, None),
    (MAX, FIRST + 2, None),
    (MAX, MAX, None),
];

/// An address, how many bytes of code are fetched from there, and the first and the last of them.
const FETCHES: &[(u64, u8, u8, u8)] = &[
    (FIRST - 1, 0, 0xcc, 0xcc),
    (FIRST, 15, 0x01, 0x00),
    (SECOND - 16, 15, 0x00, 0xcd),
    (SECOND - 15, 15, 0x00, 0xef),
    (SECOND - 14, 14, 0x00, 0xef),
    (SECOND - 8, 8, 0x01, 0xef),
    (SECOND - 1, 1, 0xef, 0xef),
    (SECOND, 15, 0x01, 0x00),
    (END - 15, 15, 0x00, 0xef),
    (END - 14, 14, 0x00, 0xef),
    (END - 1, 1, 0xef, 0xef),
    (END, 0, 0xcc, 0xcc),
    (MAX - 14, 0, 0xcc, 0xcc),
    (MAX, 0, 0xcc, 0xcc),
];

/// The kind of a region, and of the one that begins where it ends.
const PAIRS: [(Kind, Kind); 16] = [
    (Code, Code),
    (Code, Read),
    (Code, Write),
    (Code, Shadow),
    (Read, Code),
    (Read, Read),
    (Read, Write),
    (Read, Shadow),
    (Write, Code),
    (Write, Read),
    (Write, Write),
    (Write, Shadow),
    (Shadow, Code),
    (Shadow, Read),
    (Shadow, Write),
    (Shadow, Shadow),
];

fn pair(alloc: Global, first: Kind, second: Kind) -> Result<Memory, MapError> {
    let mut memory = Memory::new(alloc);
    add_page(&mut memory, SECOND, second)?;
    add_page(&mut memory, FIRST, first)?;
    Ok(memory)
}

fn kind_at(start: u64, first: Kind, second: Kind) -> Kind {
    if start == FIRST { first } else { second }
}

fn fill(memory: &mut Memory, a: u64, n: u8) -> Result<(), Pf> {
    memory.fill(a, stored_bytes(n))
}

fn store_bytes(memory: &mut Memory, a: u64, n: u8) -> Result<(), Pf> {
    memory.store_bytes(a, stored_bytes(n))
}

/// The low bytes of what is stored.
fn stored_number(n: u8) -> u64 {
    match n {
        1 => 0x88,
        4 => 0x5566_7788,
        _ => STORED,
    }
}

/// The first edge of a region that has not the bytes with which it was made.
fn changed_edge(memory: &Memory) -> Option<u64> {
    for a in [FIRST, SECOND - 8, SECOND, END - 8] {
        if memory.load(a, 8) != Ok(EDGE_WORD) {
            return Some(a);
        }
    }
    None
}

#[test]
fn loads_in_each_kind(rt: HostRuntime) {
    for (first, second) in PAIRS {
        let memory = pair(rt.alloc(), first, second).expect(&rt, "memory");
        for &(a, n, found) in ACCESSES {
            let number = found.map(|(_, number)| number);
            let kind = found.map(|(start, _)| kind_at(start, first, second));
            let loaded = load(&memory, a, n);
            assert_eq!(rt;
                loaded,
                number.ok_or(Pf { addr: a }),
                "{a:#x} {n} {first:?}"
            );
            assert_eq!(rt;
                held(&memory, a, n),
                kind,
                "{a:#x} {n} {first:?} {second:?}"
            );
            for of in KINDS {
                assert_eq!(rt;
                    is_held(&memory, a, n, of),
                    kind == Some(of),
                    "{a:#x} {n} {of:?}"
                );
            }
        }
    }
}

#[test]
fn lengths_in_each_kind(rt: HostRuntime) {
    for (first, second) in PAIRS {
        let memory = pair(rt.alloc(), first, second).expect(&rt, "memory");
        for &(a, n, start) in LENGTHS {
            let kind = start.map(|start| kind_at(start, first, second));
            assert_eq!(rt;
                memory.held(a, n),
                kind,
                "{a:#x} {n:#x} {first:?} {second:?}"
            );
            let rest = memory.bytes_at(a, n).map(|bytes| bytes.len() as u64);
            let wanted = start.map(|start| start.wrapping_add(0x1000).wrapping_sub(a));
            assert_eq!(rt; rest, wanted, "{a:#x} {n:#x}");
        }
    }
}

#[test]
fn stores_in_each_kind(rt: HostRuntime) {
    for (first, second) in PAIRS {
        for &(a, n, found) in ACCESSES {
            let kind = found.map(|(start, _)| kind_at(start, first, second));
            let (want, after) = if kind == Some(Write) {
                (Ok(()), Ok(stored_number(n)))
            } else {
                let number = found.map(|(_, number)| number);
                (Err(Pf { addr: a }), number.ok_or(Pf { addr: a }))
            };
            for is_bytes in [false, true] {
                let mut memory = pair(rt.alloc(), first, second).expect(&rt, "memory");
                let stored = if is_bytes {
                    store_bytes(&mut memory, a, n)
                } else {
                    store(&mut memory, a, n)
                };
                assert_eq!(rt; stored, want, "{a:#x} {n} {first:?} {second:?}");
                assert_eq!(rt;
                    load(&memory, a, n),
                    after,
                    "{a:#x} {n} {first:?} {second:?}"
                );
                let changed = changed_edge(&memory).is_some();
                assert_eq!(rt; changed, want.is_ok(), "{a:#x} {n} {first:?} {second:?}");
            }
        }
    }
}

#[test]
fn fills_in_each_kind(rt: HostRuntime) {
    for (first, second) in PAIRS {
        for &(a, n, found) in ACCESSES {
            let fault = Pf { addr: a };
            let (want, after) = match found {
                Some(_) => (Ok(()), Ok(stored_number(n))),
                None => (Err(fault), Err(fault)),
            };
            let mut memory = pair(rt.alloc(), first, second).expect(&rt, "memory");
            assert_eq!(rt;
                fill(&mut memory, a, n),
                want,
                "{a:#x} {n} {first:?} {second:?}"
            );
            assert_eq!(rt;
                load(&memory, a, n),
                after,
                "{a:#x} {n} {first:?} {second:?}"
            );
            let changed = changed_edge(&memory).is_some();
            assert_eq!(rt; changed, want.is_ok(), "{a:#x} {n} {first:?} {second:?}");
        }
    }
}

#[test]
fn shadow_words_in_each_kind(rt: HostRuntime) {
    for (first, second) in PAIRS {
        for &(a, n, found) in ACCESSES {
            if n == 8 {
                let kind = found.map(|(start, _)| kind_at(start, first, second));
                let (loaded, want) = if kind == Some(Shadow) {
                    (Ok(EDGE_WORD), Ok(()))
                } else {
                    (Err(Pf { addr: a }), Err(Pf { addr: a }))
                };
                let mut memory = pair(rt.alloc(), first, second).expect(&rt, "memory");
                assert_eq!(rt;
                    memory.shadow_load(a),
                    loaded,
                    "{a:#x} {first:?} {second:?}"
                );
                let stored = memory.shadow_store(a, STORED);
                assert_eq!(rt; stored, want, "{a:#x} {first:?} {second:?}");
                let after = want.map(|()| STORED);
                assert_eq!(rt; memory.shadow_load(a), after, "{a:#x} {first:?} {second:?}");
                let changed = changed_edge(&memory).is_some();
                assert_eq!(rt; changed, want.is_ok(), "{a:#x} {first:?} {second:?}");
            }
        }
    }
}

#[test]
fn fetches_in_each_kind(rt: HostRuntime) {
    for kind in KINDS {
        let memory = pair(rt.alloc(), kind, kind).expect(&rt, "memory");
        for &(a, count, first, last) in FETCHES {
            let (count, first, last) = if kind == Code {
                (count, first, last)
            } else {
                (0, 0xcc, 0xcc)
            };
            let mut bytes = [0xcc; 15];
            assert_eq!(rt; memory.fetch(a, &mut bytes), count, "{a:#x} {kind:?}");
            let at = usize::from(count);
            let found = bytes.get(at.wrapping_sub(1)).copied().unwrap_or(0xcc);
            assert_eq!(rt; (bytes[0], found), (first, last), "{a:#x} {kind:?}");
            let next = bytes.get(at).copied().unwrap_or(0xcc);
            assert_eq!(rt; next, 0xcc, "{a:#x} {kind:?}");
        }
    }
}
