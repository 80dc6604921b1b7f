//! Each call at the ends of regions, at the tokens that it takes, and at each refusal. The expected values follow from the SDM's pages of the
//! instructions (volume 2, INCSSPD/INCSSPQ, RSTORSSP, SAVEPREVSSP) and, for `set_token`, from Linux, "CET Shadow Stack".
use crate::ShadowFault::{Cp4, Gp, Pf};
use crate::tests::Answer::{Carry, Done, Fault, Popped};
use crate::tests::Call::{Incssp, Pop, Push, Rstorssp, Saveprevssp, SetToken};
use crate::{ShadowFault, incssp, pop, push, rstorssp, saveprevssp, set_token};
use cet_mem::{Kind, MapError, Memory};
use std::alloc::Global;

/// The first page of all.
const LOW: u64 = 0;

const CODE: u64 = 0x1000;

const READ: u64 = 0x2000;

const WRITE: u64 = 0x3000;

const STACK: u64 = 0x4000;

/// A second shadow stack, which begins where the first one ends.
const NEXT: u64 = 0x5000;

/// The last page of user addresses.
const HIGH: u64 = 0x7fff_ffff_f000;

/// The last word of all addresses, which no region can have.
const LAST: u64 = 0xffff_ffff_ffff_fff8;

const PAGES: [(u64, Kind); 7] = [
    (LOW, Kind::Shadow),
    (CODE, Kind::Code),
    (READ, Kind::Read),
    (WRITE, Kind::Write),
    (STACK, Kind::Shadow),
    (NEXT, Kind::Shadow),
    (HIGH, Kind::Shadow),
];

/// A word at an address.
#[derive(Clone, Copy)]
struct Word(u64, u64);

#[derive(Clone, Copy, Debug)]
enum Call {
    Push(u64),
    Pop,
    Incssp(u8),
    Rstorssp(u64),
    Saveprevssp(bool),
    SetToken(u64),
}

#[derive(Clone, Copy, Debug, PartialEq, Eq)]
enum Answer {
    Done,
    Popped(u64),
    Carry(bool),
    Fault(ShadowFault),
}

/// The words before the call, where they are not 0; SSP; the call; its answer; and SSP and the words that are different after it.
type Row = (&'static [Word], u64, Call, Answer, u64, &'static [Word]);

/// The words before the call, SSP, the call, and its refusal, which leaves SSP and the words.
type Refusal = (&'static [Word], u64, Call, ShadowFault);

fn pages(alloc: Global) -> Result<Memory, MapError> {
    let mut memory = Memory::new(alloc);
    for (at, kind) in PAGES {
        memory.place(at, 4096, kind)?;
    }
    Ok(memory)
}

fn fill(memory: &mut Memory, words: &[Word]) {
    for Word(a, word) in words {
        let _ = memory.fill(*a, &word.to_le_bytes());
    }
}

/// The first word that is not as in the other memory.
fn other_word(memory: &Memory, expected: &Memory) -> Option<u64> {
    for (page, _) in PAGES {
        for i in 0..512 {
            let a = page | (8 * i);
            if memory.load(a, 8) != expected.load(a, 8) {
                return Some(a);
            }
        }
    }
    None
}

fn done(outcome: Result<(), ShadowFault>) -> Answer {
    match outcome {
        Ok(()) => Done,
        Err(fault) => Fault(fault),
    }
}

fn popped(outcome: Result<u64, ShadowFault>) -> Answer {
    match outcome {
        Ok(word) => Popped(word),
        Err(fault) => Fault(fault),
    }
}

fn carry(outcome: Result<bool, ShadowFault>) -> Answer {
    match outcome {
        Ok(cf) => Carry(cf),
        Err(fault) => Fault(fault),
    }
}

/// None where SSP, or the top that is given, is no multiple of 8.
fn answered(memory: &mut Memory, ssp: &mut u64, call: Call) -> Option<Answer> {
    if *ssp % 8 != 0 {
        return None;
    }
    match call {
        Push(word) => Some(done(push(memory, ssp, word))),
        Pop => Some(popped(pop(memory, ssp))),
        Incssp(count) => Some(done(incssp(memory, ssp, count))),
        Rstorssp(at) => Some(carry(rstorssp(memory, ssp, at))),
        Saveprevssp(cf) => Some(done(saveprevssp(memory, ssp, cf))),
        SetToken(top) if top % 8 == 0 => Some(done(set_token(memory, top))),
        SetToken(_) => None,
    }
}

/// PUSH and POP, at the first and the last place of a region.
fn words() -> &'static [Row] {
    &[
        (
            &[],
            0x4800,
            Push(0x1122334455667788),
            Done,
            0x47f8,
            &[Word(0x47f8, 0x1122334455667788), Word(0x4800, 0)],
        ),
        (&[], 0x4008, Push(7), Done, 0x4000, &[Word(0x4000, 7)]),
        (
            &[],
            0x5000,
            Push(7),
            Done,
            0x4ff8,
            &[Word(0x4ff8, 7), Word(0x5000, 0)],
        ),
        (&[], 0x8, Push(7), Done, 0, &[Word(0, 7)]),
        (
            &[],
            0x8000_0000_0000,
            Push(u64::MAX),
            Done,
            0x7fff_ffff_fff8,
            &[Word(0x7fff_ffff_fff8, u64::MAX)],
        ),
        (
            &[Word(0x4800, 0x1122334455667788)],
            0x4800,
            Pop,
            Popped(0x1122334455667788),
            0x4808,
            &[Word(0x4800, 0x1122334455667788)],
        ),
        (&[Word(0, 7)], 0, Pop, Popped(7), 0x8, &[]),
        (&[Word(0x5ff8, 7)], 0x5ff8, Pop, Popped(7), 0x6000, &[]),
        (
            &[Word(0x7fff_ffff_fff8, 7)],
            0x7fff_ffff_fff8,
            Pop,
            Popped(7),
            0x8000_0000_0000,
            &[],
        ),
        (
            &[Word(0x47f8, 9)],
            0x4800,
            Push(0),
            Done,
            0x47f8,
            &[Word(0x47f8, 0)],
        ),
        (&[], 0x6000, Push(7), Done, 0x5ff8, &[Word(0x5ff8, 7)]),
        (
            &[Word(0x4ff8, 7), Word(0x5000, 8)],
            0x4ff8,
            Pop,
            Popped(7),
            0x5000,
            &[],
        ),
        (&[Word(0x4000, 7)], 0x4000, Pop, Popped(7), 0x4008, &[]),
    ]
}

/// INCSSPQ passes as many words, to the end of a region, and into one that begins there.
fn skips() -> &'static [Row] {
    &[
        (&[], 0x6000, Incssp(0), Done, 0x6000, &[]),
        (&[], 0x5ff8, Incssp(1), Done, 0x6000, &[]),
        (&[], 0x5808, Incssp(255), Done, 0x6000, &[]),
        (&[], 0x4ff8, Incssp(2), Done, 0x5008, &[]),
        (&[], 0x3800, Incssp(0), Done, 0x3800, &[]),
        (&[], 0x7000, Incssp(0), Done, 0x7000, &[]),
        (&[], LAST, Incssp(0), Done, LAST, &[]),
        (&[Word(0x4000, 7)], 0x4000, Incssp(1), Done, 0x4008, &[]),
        (&[], 0, Incssp(255), Done, 0x7f8, &[]),
        (&[], 0x4c00, Incssp(255), Done, 0x53f8, &[]),
        (&[], 0x4ff8, Incssp(1), Done, 0x5000, &[]),
        (
            &[],
            0x7fff_ffff_fff8,
            Incssp(1),
            Done,
            0x8000_0000_0000,
            &[],
        ),
    ]
}

/// RSTORSSP takes the word that names the address above its own, with low bits 001 or 101.
fn restores() -> &'static [Row] {
    &[
        (
            &[Word(0x5100, 0x5109)],
            0x4800,
            Rstorssp(0x5100),
            Carry(false),
            0x5100,
            &[Word(0x5100, 0x4803)],
        ),
        (
            &[Word(0x5100, 0x510d)],
            0x4800,
            Rstorssp(0x5100),
            Carry(true),
            0x5100,
            &[Word(0x5100, 0x4803)],
        ),
        (
            &[Word(0, 9)],
            0x6000,
            Rstorssp(0),
            Carry(false),
            0,
            &[Word(0, 0x6003)],
        ),
        (
            &[Word(0x7fff_ffff_fff8, 0x8000_0000_0001)],
            0,
            Rstorssp(0x7fff_ffff_fff8),
            Carry(false),
            0x7fff_ffff_fff8,
            &[Word(0x7fff_ffff_fff8, 3)],
        ),
        (
            &[Word(0x4800, 0x4809)],
            0x4800,
            Rstorssp(0x4800),
            Carry(false),
            0x4800,
            &[Word(0x4800, 0x4803)],
        ),
        (
            &[Word(0x4ff8, 0x5001)],
            0x5800,
            Rstorssp(0x4ff8),
            Carry(false),
            0x4ff8,
            &[Word(0x4ff8, 0x5803)],
        ),
        (
            &[Word(0x4000, 0x400d)],
            LAST,
            Rstorssp(0x4000),
            Carry(true),
            0x4000,
            &[Word(0x4000, 0xffff_ffff_ffff_fffb)],
        ),
    ]
}

/// SAVEPREVSSP takes a word with bit 1 set and bit 2 clear, and SHADOW_STACK_SET_TOKEN the end of a stack.
fn saves() -> &'static [Row] {
    &[
        (
            &[Word(0x4800, 0x5103)],
            0x4800,
            Saveprevssp(false),
            Done,
            0x4808,
            &[Word(0x50f8, 0x5101), Word(0x4800, 0x5103)],
        ),
        (
            &[Word(0x4800, 0x5102)],
            0x4800,
            Saveprevssp(false),
            Done,
            0x4808,
            &[Word(0x50f8, 0x5101)],
        ),
        (
            &[Word(0x5ff8, 0x5003)],
            0x5ff8,
            Saveprevssp(false),
            Done,
            0x6000,
            &[Word(0x4ff8, 0x5001)],
        ),
        (
            &[Word(0x4800, 0x480b)],
            0x4800,
            Saveprevssp(false),
            Done,
            0x4808,
            &[Word(0x4800, 0x4809)],
        ),
        (
            &[],
            0x4800,
            SetToken(0x6000),
            Done,
            0x4800,
            &[Word(0x5ff8, 0x6001)],
        ),
        (
            &[],
            0x4800,
            SetToken(0x8000_0000_0000),
            Done,
            0x4800,
            &[Word(0x7fff_ffff_fff8, 0x8000_0000_0001)],
        ),
        (&[], 0x4800, SetToken(8), Done, 0x4800, &[Word(0, 9)]),
        (
            &[Word(0x4800, 0x8000_0000_0003)],
            0x4800,
            Saveprevssp(false),
            Done,
            0x4808,
            &[Word(0x7fff_ffff_fff8, 0x8000_0000_0001)],
        ),
        (
            &[Word(0, 0xb)],
            0,
            Saveprevssp(false),
            Done,
            8,
            &[Word(0, 9)],
        ),
        (
            &[],
            0x3800,
            SetToken(0x5000),
            Done,
            0x3800,
            &[Word(0x4ff8, 0x5001)],
        ),
    ]
}

/// PUSH and POP where no Shadow region has the word.
fn refused_words() -> &'static [Refusal] {
    &[
        (&[], 0x4000, Push(7), Pf { addr: 0x3ff8 }),
        (&[], 0x1800, Push(7), Pf { addr: 0x17f8 }),
        (&[], 0x2800, Push(7), Pf { addr: 0x27f8 }),
        (&[], 0, Push(7), Pf { addr: LAST }),
        (&[], 0x6000, Pop, Pf { addr: 0x6000 }),
        (&[Word(0x3ff8, 7)], 0x3ff8, Pop, Pf { addr: 0x3ff8 }),
        (&[], LAST, Pop, Pf { addr: LAST }),
        (&[], 0x6008, Push(7), Pf { addr: 0x6000 }),
        (
            &[],
            HIGH,
            Push(7),
            Pf {
                addr: 0x7fff_ffff_eff8,
            },
        ),
        (&[Word(0x1800, 7)], 0x1800, Pop, Pf { addr: 0x1800 }),
        (&[Word(0x2800, 7)], 0x2800, Pop, Pf { addr: 0x2800 }),
        (
            &[],
            0x8000_0000_0000,
            Pop,
            Pf {
                addr: 0x8000_0000_0000,
            },
        ),
    ]
}

/// INCSSPQ where the first or the last word is in no Shadow region.
fn refused_skips() -> &'static [Refusal] {
    &[
        (&[], 0x6000, Incssp(1), Pf { addr: 0x6000 }),
        (&[], 0x5ff8, Incssp(2), Pf { addr: 0x6000 }),
        (&[], 0x5810, Incssp(255), Pf { addr: 0x6000 }),
        (&[], 0x3ff8, Incssp(2), Pf { addr: 0x3ff8 }),
        (&[], 0xff8, Incssp(2), Pf { addr: 0x1000 }),
        (&[], LAST, Incssp(2), Pf { addr: LAST }),
        (&[], 0x1800, Incssp(1), Pf { addr: 0x1800 }),
        (&[], 0x2800, Incssp(255), Pf { addr: 0x2800 }),
        (&[], 0x3800, Incssp(1), Pf { addr: 0x3800 }),
        (&[], 0x6008, Incssp(1), Pf { addr: 0x6008 }),
        (&[], 0x5ff8, Incssp(255), Pf { addr: 0x67e8 }),
        (
            &[],
            0x7fff_ffff_fff8,
            Incssp(2),
            Pf {
                addr: 0x8000_0000_0000,
            },
        ),
    ]
}

/// RSTORSSP at a place that is unaligned or in no Shadow region, and at words that are no token of their place.
fn refused_restores() -> &'static [Refusal] {
    &[
        (
            &[Word(0x5100, 0x5108)],
            0x4800,
            Rstorssp(0x5100),
            Cp4 { word: 0x5108 },
        ),
        (
            &[Word(0x5100, 0x510a)],
            0x4800,
            Rstorssp(0x5100),
            Cp4 { word: 0x510a },
        ),
        (
            &[Word(0x5100, 0x510b)],
            0x4800,
            Rstorssp(0x5100),
            Cp4 { word: 0x510b },
        ),
        (
            &[Word(0x5100, 0x5101)],
            0x4800,
            Rstorssp(0x5100),
            Cp4 { word: 0x5101 },
        ),
        (
            &[Word(0x5100, 0x5111)],
            0x4800,
            Rstorssp(0x5100),
            Cp4 { word: 0x5111 },
        ),
        (
            &[Word(0x5100, 0x1_0000_5109)],
            0x4800,
            Rstorssp(0x5100),
            Cp4 {
                word: 0x1_0000_5109,
            },
        ),
        (&[Word(0, 1)], 0x4800, Rstorssp(0), Cp4 { word: 1 }),
        (&[Word(0x5104, 0x510d)], 0x4800, Rstorssp(0x5104), Gp),
        (&[], 0x4800, Rstorssp(0x6001), Gp),
        (&[], 0x4800, Rstorssp(0x6000), Pf { addr: 0x6000 }),
        (
            &[Word(0x3100, 0x3109)],
            0x4800,
            Rstorssp(0x3100),
            Pf { addr: 0x3100 },
        ),
        (&[Word(0x5100, 0x5109)], 0x4800, Rstorssp(0x5101), Gp),
        (&[Word(0x50fc, 0x5105)], 0x4800, Rstorssp(0x50fc), Gp),
        (&[Word(0x5107, 0x5109)], 0x4800, Rstorssp(0x5107), Gp),
        (&[], 0x4800, Rstorssp(0x5100), Cp4 { word: 0 }),
        (
            &[Word(0x5100, 0x4109)],
            0x4800,
            Rstorssp(0x5100),
            Cp4 { word: 0x4109 },
        ),
        (
            &[Word(0x5100, 0x5103)],
            0x4800,
            Rstorssp(0x5100),
            Cp4 { word: 0x5103 },
        ),
        (
            &[Word(0x1100, 0x1109)],
            0x4800,
            Rstorssp(0x1100),
            Pf { addr: 0x1100 },
        ),
        (
            &[Word(0x2100, 0x2109)],
            0x4800,
            Rstorssp(0x2100),
            Pf { addr: 0x2100 },
        ),
        (&[], 0x4800, Rstorssp(LAST), Pf { addr: LAST }),
    ]
}

/// SAVEPREVSSP with CF set, of words that are no token, and where a word is in no Shadow region; SHADOW_STACK_SET_TOKEN there too.
fn refused_saves() -> &'static [Refusal] {
    &[
        (&[Word(0x4800, 0x5103)], 0x4800, Saveprevssp(true), Gp),
        (&[Word(0x4800, 0x5101)], 0x4800, Saveprevssp(false), Gp),
        (&[Word(0x4800, 0x5107)], 0x4800, Saveprevssp(false), Gp),
        (
            &[Word(0x4800, 0x4003)],
            0x4800,
            Saveprevssp(false),
            Pf { addr: 0x3ff8 },
        ),
        (
            &[Word(0x4800, 3)],
            0x4800,
            Saveprevssp(false),
            Pf { addr: LAST },
        ),
        (
            &[Word(0x3800, 0x5103)],
            0x3800,
            Saveprevssp(false),
            Pf { addr: 0x3800 },
        ),
        (&[], 0x6000, Saveprevssp(true), Pf { addr: 0x6000 }),
        (&[], 0x4800, SetToken(0x4000), Pf { addr: 0x3ff8 }),
        (&[], 0x4800, SetToken(0), Pf { addr: LAST }),
        (&[Word(0x4800, 0x5100)], 0x4800, Saveprevssp(false), Gp),
        (&[Word(0x4800, 0x5105)], 0x4800, Saveprevssp(false), Gp),
        (&[Word(0x4800, 0x5106)], 0x4800, Saveprevssp(false), Gp),
        (&[Word(0x4800, 0x5107)], 0x4800, Saveprevssp(true), Gp),
        (&[Word(0x4800, 0x4003)], 0x4800, Saveprevssp(true), Gp),
        (
            &[Word(0x4800, 0x1803)],
            0x4800,
            Saveprevssp(false),
            Pf { addr: 0x17f8 },
        ),
        (
            &[Word(0x4800, 0x2803)],
            0x4800,
            Saveprevssp(false),
            Pf { addr: 0x27f8 },
        ),
        (
            &[Word(0x4800, 0x600b)],
            0x4800,
            Saveprevssp(false),
            Pf { addr: 0x6000 },
        ),
        (
            &[Word(0x4800, u64::MAX - 4)],
            0x4800,
            Saveprevssp(false),
            Pf {
                addr: 0xffff_ffff_ffff_fff0,
            },
        ),
        (
            &[Word(0x1800, 0x5103)],
            0x1800,
            Saveprevssp(false),
            Pf { addr: 0x1800 },
        ),
        (&[], LAST, Saveprevssp(false), Pf { addr: LAST }),
        (&[], 0x4800, SetToken(0x1800), Pf { addr: 0x17f8 }),
        (&[], 0x4800, SetToken(0x2800), Pf { addr: 0x27f8 }),
        (&[], 0x4800, SetToken(0x6008), Pf { addr: 0x6000 }),
        (
            &[],
            0x4800,
            SetToken(LAST),
            Pf {
                addr: 0xffff_ffff_ffff_fff0,
            },
        ),
    ]
}

/// From one stack to another, which has a token at its end, and back again.
const TURNS: &[(Call, Answer, u64, &[Word])] = &[
    (SetToken(0x6000), Done, 0x4800, &[Word(0x5ff8, 0x6001)]),
    (
        Rstorssp(0x5ff8),
        Carry(false),
        0x5ff8,
        &[Word(0x5ff8, 0x4803)],
    ),
    (Saveprevssp(false), Done, 0x6000, &[Word(0x47f8, 0x4801)]),
    (Push(7), Done, 0x5ff8, &[Word(0x5ff8, 7)]),
    (
        Rstorssp(0x47f8),
        Carry(false),
        0x47f8,
        &[Word(0x47f8, 0x5ffb)],
    ),
    (Saveprevssp(false), Done, 0x4800, &[Word(0x5ff0, 0x5ff9)]),
    (
        Rstorssp(0x5ff0),
        Carry(false),
        0x5ff0,
        &[Word(0x5ff0, 0x4803)],
    ),
    (Incssp(1), Done, 0x5ff8, &[]),
    (Pop, Popped(7), 0x6000, &[]),
    (Pop, Fault(Pf { addr: 0x6000 }), 0x6000, &[]),
];

#[test]
fn calls(rt: HostRuntime) {
    for rows in [words(), skips(), restores(), saves()] {
        for (before, ssp, call, answer, ssp_after, after) in rows {
            let mut memory = pages(rt.alloc()).expect(&rt, "memory");
            let mut expected = pages(rt.alloc()).expect(&rt, "memory");
            fill(&mut memory, before);
            fill(&mut expected, before);
            fill(&mut expected, after);
            let mut changed = *ssp;
            let made = answered(&mut memory, &mut changed, *call);
            assert_eq!(rt; made, Some(*answer), "{call:?} at {ssp:#x}");
            assert_eq!(rt; changed, *ssp_after, "{call:?} at {ssp:#x}");
            assert_eq!(rt;
                other_word(&memory, &expected),
                None,
                "{call:?} at {ssp:#x}"
            );
        }
    }
}

#[test]
fn refusals(rt: HostRuntime) {
    for rows in [
        refused_words(),
        refused_skips(),
        refused_restores(),
        refused_saves(),
    ] {
        for (before, ssp, call, fault) in rows {
            let mut memory = pages(rt.alloc()).expect(&rt, "memory");
            let mut expected = pages(rt.alloc()).expect(&rt, "memory");
            fill(&mut memory, before);
            fill(&mut expected, before);
            let mut changed = *ssp;
            let made = answered(&mut memory, &mut changed, *call);
            assert_eq!(rt; made, Some(Fault(*fault)), "{call:?} at {ssp:#x}");
            assert_eq!(rt; changed, *ssp, "{call:?} at {ssp:#x}");
            assert_eq!(rt;
                other_word(&memory, &expected),
                None,
                "{call:?} at {ssp:#x}"
            );
        }
    }
}

#[test]
fn turns(rt: HostRuntime) {
    let mut memory = pages(rt.alloc()).expect(&rt, "memory");
    let mut expected = pages(rt.alloc()).expect(&rt, "memory");
    let mut ssp = 0x4800;
    for (call, answer, ssp_after, after) in TURNS {
        fill(&mut expected, after);
        let made = answered(&mut memory, &mut ssp, *call);
        assert_eq!(rt; made, Some(*answer), "{call:?}");
        assert_eq!(rt; ssp, *ssp_after, "{call:?}");
        assert_eq!(rt; other_word(&memory, &expected), None, "{call:?}");
    }
}

/// Bit 2 of a restore token is the one that RSTORSSP answers. Every other bit decides whether the word is a token of its place.
#[test]
fn restore_token_bits(rt: HostRuntime) {
    for bit in 0..64u32 {
        let word = 0x5109 ^ (1 << bit);
        let mut memory = pages(rt.alloc()).expect(&rt, "memory");
        let mut expected = pages(rt.alloc()).expect(&rt, "memory");
        fill(&mut memory, &[Word(0x5100, word)]);
        fill(
            &mut expected,
            &[Word(0x5100, if bit == 2 { 0x4803 } else { word })],
        );
        let mut ssp = 0x4800;
        let made = rstorssp(&mut memory, &mut ssp, 0x5100);
        let answer = if bit == 2 {
            Ok(true)
        } else {
            Err(Cp4 { word })
        };
        assert_eq!(rt; made, answer, "bit {bit}");
        assert_eq!(rt; ssp, if bit == 2 { 0x5100 } else { 0x4800 }, "bit {bit}");
        assert_eq!(rt; other_word(&memory, &expected), None, "bit {bit}");
    }
}

/// SAVEPREVSSP passes over bit 0, refuses the word without bit 1 and with bit 2, and takes the other bits for the address. With bit 13
/// and above changed, that is in no Shadow region.
#[test]
fn previous_token_bits(rt: HostRuntime) {
    for bit in 0..64u32 {
        let word: u64 = 0x5103 ^ (1 << bit);
        let old = word & !3;
        let at = old.wrapping_sub(8);
        let mut memory = pages(rt.alloc()).expect(&rt, "memory");
        let mut expected = pages(rt.alloc()).expect(&rt, "memory");
        fill(&mut memory, &[Word(0x4800, word)]);
        fill(&mut expected, &[Word(0x4800, word)]);
        let answer = match bit {
            1 | 2 => Err(Gp),
            0 | 3..=12 => Ok(()),
            _ => Err(Pf { addr: at }),
        };
        if answer == Ok(()) {
            fill(&mut expected, &[Word(at, old | 1)]);
        }
        let mut ssp = 0x4800;
        let made = saveprevssp(&mut memory, &mut ssp, false);
        assert_eq!(rt; made, answer, "bit {bit}");
        assert_eq!(rt;
            ssp,
            if made == Ok(()) { 0x4808 } else { 0x4800 },
            "bit {bit}"
        );
        assert_eq!(rt; other_word(&memory, &expected), None, "bit {bit}");
    }
}

/// A page holds 512 words, the first one at its end.
#[test]
fn full_and_empty(rt: HostRuntime) {
    let mut memory = pages(rt.alloc()).expect(&rt, "memory");
    let mut ssp = HIGH + 4096;
    for i in 0..512 {
        assert_eq!(rt;
            answered(&mut memory, &mut ssp, Push(i)),
            Some(Done),
            "word {i}"
        );
    }
    let full = Fault(Pf { addr: HIGH - 8 });
    assert_eq!(rt; answered(&mut memory, &mut ssp, Push(512)), Some(full));
    assert_eq!(rt; ssp, HIGH);
    for i in 0..512 {
        assert_eq!(rt;
            answered(&mut memory, &mut ssp, Pop),
            Some(Popped(511 - i)),
            "word {i}"
        );
    }
    let empty = Fault(Pf { addr: HIGH + 4096 });
    assert_eq!(rt; answered(&mut memory, &mut ssp, Pop), Some(empty));
    assert_eq!(rt; ssp, HIGH + 4096);
}
