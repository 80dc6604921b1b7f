//! Steps over raw code. The code is what GNU as makes of the text above a row; the states follow from the SDM's page of the instruction.
//! Flags that an instruction leaves undefined come out clear.
mod accesses;
mod data;
mod faults;
mod features;
mod operands;
mod results;
mod shadow_stack;
mod transfers;
mod widths;

use crate::operand::with_value;
use crate::{StepEnd, step};
use cet_isa::{Fault, Flags, Mode, Reg, Regs};
use cet_mem::{Kind, MapError, Memory};
use std::alloc::Global;

/// A page of code of its own, which ends where the next one begins.
const CODE_BEFORE: u64 = 0x400000;

const CODE: u64 = 0x401000;

const DATA: u64 = 0x403000;

const SHADOW: u64 = 0x405000;

const OFF: Mode = Mode {
    ibt: false,
    shstk: false,
};

const IBT: Mode = Mode {
    ibt: true,
    shstk: false,
};

const SHSTK: Mode = Mode {
    ibt: false,
    shstk: true,
};

const BOTH: Mode = Mode {
    ibt: true,
    shstk: true,
};

/// A part of the state of a thread and its memory. Flags are CF 1, ZF 2, SF 4 and OF 8.
#[derive(Clone, Copy)]
enum Part {
    Reg(Reg, u64),
    Rip(u64),
    Ssp(u64),
    Flags(u8),
    Waiting(bool),
    Word(u64, u64),
}

/// The code at rip; what of CET is on; how many steps; where the state before them is not the usual one; how the last step ends, the others
/// being at the next instruction; and what is different after them.
type Row = (
    &'static [u8],
    Mode,
    u32,
    &'static [Part],
    StepEnd,
    &'static [Part],
);

/// The code of one instruction, what is different before it, and what after it besides rip.
type Single = (&'static [u8], &'static [Part], &'static [Part]);

/// The code of one instruction, what is different before it, and the fault that it ends in.
type Faulting = (&'static [u8], &'static [Part], Fault);

/// How the last step of a row ends, the registers after it, and the first word that is not as it should be.
type Outcome = (Option<StepEnd>, Regs, Option<u64>);

/// The first row with another outcome than it should have: its code, and that outcome.
type Other = Option<(&'static [u8], Outcome)>;

/// The state before the instructions of `Single` and `Faulting`: a register for each width's sign, the address of a word, and one where words
/// are loaded and not stored, and one where they are neither.
const OPERANDS: &[Part] = &[
    Part::Reg(Reg::Rax, 0x1122334455667788),
    Part::Reg(Reg::Rcx, 0x8000000180000080),
    Part::Reg(Reg::Rdi, 0x403900),
    Part::Reg(Reg::Rsi, 0x405900),
    Part::Reg(Reg::Rbx, 0x404000),
    Part::Word(0x403900, 0xfedcba9876543210),
    Part::Word(0x403800, 0x401234),
];

fn flags(n: u8) -> Flags {
    Flags {
        cf: n & 1 == 1,
        zf: n & 2 == 2,
        sf: n & 4 == 4,
        of: n & 8 == 8,
    }
}

fn with_part(regs: Regs, part: Part) -> Regs {
    match part {
        Part::Reg(reg, v) => with_value(regs, reg, v),
        Part::Rip(rip) => Regs { rip, ..regs },
        Part::Ssp(ssp) => Regs { ssp, ..regs },
        Part::Flags(n) => Regs {
            flags: flags(n),
            ..regs
        },
        Part::Waiting(waiting) => Regs { waiting, ..regs },
        Part::Word(..) => regs,
    }
}

fn with_parts(regs: Regs, parts: &[Part]) -> Regs {
    let mut changed = regs;
    for part in parts {
        changed = with_part(changed, *part);
    }
    changed
}

/// Each stack is half full, and every word is 0.
fn usual() -> Regs {
    let zero = Regs {
        r: [0; 16],
        rip: CODE,
        flags: flags(0),
        waiting: false,
        ssp: SHADOW + 0x800,
        mask: 0,
    };
    with_value(zero, Reg::Rsp, DATA + 0x800)
}

fn pages(alloc: Global) -> Result<Memory, MapError> {
    let mut memory = Memory::new(alloc);
    memory.place(CODE_BEFORE, 4096, Kind::Code)?;
    memory.place(CODE, 4096, Kind::Code)?;
    memory.place(DATA, 4096, Kind::Write)?;
    memory.place(SHADOW, 4096, Kind::Shadow)?;
    Ok(memory)
}

/// Writes the code, where there is a region to hold it, and the words.
fn fill(memory: &mut Memory, rip: u64, code: &[u8], parts: &[Part]) {
    if !code.is_empty() {
        let _ = memory.fill(rip, code);
    }
    for part in parts {
        if let Part::Word(a, word) = part {
            let _ = memory.fill(*a, &word.to_le_bytes());
        }
    }
}

/// The end of the last of so many steps, if each before it ends at the next instruction.
fn run(memory: &mut Memory, regs: &mut Regs, mode: Mode, steps: u32) -> Option<StepEnd> {
    for _ in 1..steps {
        if regs.ssp % 8 != 0 || step(memory, regs, mode, 0) != StepEnd::Next {
            return None;
        }
    }
    if regs.ssp % 8 == 0 {
        Some(step(memory, regs, mode, 0))
    } else {
        None
    }
}

/// The first word of the data or of the shadow stack that is not as in the other memory.
fn other_word(memory: &Memory, expected: &Memory) -> Option<u64> {
    for page in [DATA, SHADOW] {
        for i in 0..512 {
            let a = page | (8 * i);
            if memory.load(a, 8) != expected.load(a, 8) {
                return Some(a);
            }
        }
    }
    None
}

/// What so many steps from `start` make of pages with the code and `words`, where `changed` are the words that should be different after them.
fn outcome(
    alloc: Global,
    code: &[u8],
    (mode, steps): (Mode, u32),
    start: Regs,
    words: [&[Part]; 2],
    changed: &[Part],
) -> Result<Outcome, MapError> {
    let mut memory = pages(alloc)?;
    let mut expected = pages(alloc)?;
    for parts in words {
        fill(&mut memory, start.rip, code, parts);
        fill(&mut expected, start.rip, code, parts);
    }
    fill(&mut expected, start.rip, &[], changed);
    let mut regs = start;
    let ended = run(&mut memory, &mut regs, mode, steps);
    Ok((ended, regs, other_word(&memory, &expected)))
}

fn other_steps(alloc: Global, rows: &'static [Row]) -> Result<Other, MapError> {
    for (code, mode, steps, before, end, after) in rows {
        let start = with_parts(usual(), before);
        let made = outcome(alloc, code, (*mode, *steps), start, [&[], before], after)?;
        if made != (Some(*end), with_parts(start, after), None) {
            return Ok(Some((*code, made)));
        }
    }
    Ok(None)
}

fn other_single_steps(alloc: Global, rows: &'static [Single]) -> Result<Other, MapError> {
    for (code, before, after) in rows {
        let start = with_parts(with_parts(usual(), OPERANDS), before);
        let next = Regs {
            rip: start.rip.wrapping_add(code.len() as u64),
            ..start
        };
        let made = outcome(alloc, code, (OFF, 1), start, [OPERANDS, before], after)?;
        if made != (Some(StepEnd::Next), with_parts(next, after), None) {
            return Ok(Some((*code, made)));
        }
    }
    Ok(None)
}

fn other_faults(alloc: Global, rows: &'static [Faulting]) -> Result<Other, MapError> {
    for (code, before, fault) in rows {
        let start = with_parts(with_parts(usual(), OPERANDS), before);
        let made = outcome(alloc, code, (OFF, 1), start, [OPERANDS, before], &[])?;
        if made != (Some(StepEnd::Fault(*fault)), start, None) {
            return Ok(Some((*code, made)));
        }
    }
    Ok(None)
}

#[test]
fn steps(rt: HostRuntime) {
    for rows in [data::moves(), data::arithmetic(), data::stack()] {
        let other = other_steps(rt.alloc(), rows).expect(&rt, "memory");
        assert_eq!(rt; other, None);
    }
}

#[test]
fn transfer_steps(rt: HostRuntime) {
    for rows in [
        transfers::control(),
        transfers::tracker(),
        transfers::shadow(),
        transfers::programs(),
    ] {
        let other = other_steps(rt.alloc(), rows).expect(&rt, "memory");
        assert_eq!(rt; other, None);
    }
}

#[test]
fn feature_steps(rt: HostRuntime) {
    for rows in [features::WAITING, features::TRANSFERS, shadow_stack::SHADOW] {
        let other = other_steps(rt.alloc(), rows).expect(&rt, "memory");
        assert_eq!(rt; other, None);
    }
}

#[test]
fn single_steps(rt: HostRuntime) {
    for rows in [
        widths::moves(),
        widths::arithmetic(),
        widths::shifts(),
        widths::stack(),
        widths::control(),
    ] {
        let other = other_single_steps(rt.alloc(), rows).expect(&rt, "memory");
        assert_eq!(rt; other, None);
    }
}

#[test]
fn operand_steps(rt: HostRuntime) {
    for rows in [operands::MOVES, operands::ARITHMETIC, operands::TESTS] {
        let other = other_single_steps(rt.alloc(), rows).expect(&rt, "memory");
        assert_eq!(rt; other, None);
    }
}

#[test]
fn result_steps(rt: HostRuntime) {
    for rows in [
        results::SHIFTS,
        results::PRODUCTS,
        results::CONDITIONS,
        results::CONDITIONAL_MOVES,
    ] {
        let other = other_single_steps(rt.alloc(), rows).expect(&rt, "memory");
        assert_eq!(rt; other, None);
    }
}

#[test]
fn faulting_steps(rt: HostRuntime) {
    for rows in [
        faults::moves(),
        faults::arithmetic(),
        faults::shifts(),
        faults::stack(),
        faults::control(),
    ] {
        let other = other_faults(rt.alloc(), rows).expect(&rt, "memory");
        assert_eq!(rt; other, None);
    }
}

#[test]
fn faulting_accesses(rt: HostRuntime) {
    for rows in [
        accesses::MOVES,
        accesses::ARITHMETIC,
        accesses::SHIFTS,
        accesses::STACK,
    ] {
        let other = other_faults(rt.alloc(), rows).expect(&rt, "memory");
        assert_eq!(rt; other, None);
    }
}
