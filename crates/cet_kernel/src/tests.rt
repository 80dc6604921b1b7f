//! Processes from `load` on, event by event. A row is a list of acts over one program, and of what holds after them. The code is what GNU as makes
//! of the text above it; what comes of it follows from the SDM, Linux's manual pages of the calls, its errno.h and its user shadow stack
//! document, and for this project's own parts from docs/machine.md.
mod contexts;
mod files;
mod images;
mod mappings;
mod signals;
mod threads;

ghost use Rattle.std.specs.Prelude.{◌≡◌, IfOk};
ghost use Rattle.cet_rules.specs.Regular.{IsSegment};

use crate::{Event, LoadError, Outcome, Process, load};
use bitflags::Flags;
use cet_base::{Bytes, NoMemory};
use cet_cpu::value;
use cet_isa::{Reg, Regs};
use cet_mem::Kind;
use cet_note::Features;
use cet_rules::{FunctionList, Image, Segment, SegmentList};
use std::alloc::{AllocError, Global};
use std::test::Fail;

/// The program of the rows, at 0x401000: it takes the next record of seven words, whichever thread runs it, loads rax, rdi, rsi, rdx, r10, r8 and r9
/// from it, and makes the call. How far the records are used stands in the first word of the main stack.
///
/// start: endbr64; movabs rbp, 0x7ffe00000000; mov ebx, 56; lock xadd [rbp], rbx; mov rax, [rbx+0x401330]; mov rdi, [rbx+0x401338];
/// mov rsi, [rbx+0x401340]; mov rdx, [rbx+0x401348]; mov r10, [rbx+0x401350]; mov r8, [rbx+0x401358]; mov r9, [rbx+0x401360];
/// call: syscall; after: lea rcx, [rip+start]; jmp rcx
///
/// Then what signals enter and return to, each with its address below:
/// returns: endbr64; ret; restorer: mov eax, 15; syscall
/// calls: endbr64; call start
/// skips: mov eax, 1; incsspq rax; mov eax, 15; syscall
/// pushes: call 1f; nop; 1: add rsp, 8; mov eax, 15; syscall
/// clones: endbr64; 1: mov eax, 56; mov edi, 0x50f00; mov esi, 0x1000; syscall; jmp 1b
const PROGRAM: &[u8] = b"\xf3\x0f\x1e\xfa\x48\xbd\x00\x00\x00\x00\xfe\x7f\x00\x00\xbb\x38\
\x00\x00\x00\xf0\x48\x0f\xc1\x5d\x00\x48\x8b\x83\x30\x13\x40\x00\
\x48\x8b\xbb\x38\x13\x40\x00\x48\x8b\xb3\x40\x13\x40\x00\x48\x8b\
\x93\x48\x13\x40\x00\x4c\x8b\x93\x50\x13\x40\x00\x4c\x8b\x83\x58\
\x13\x40\x00\x4c\x8b\x8b\x60\x13\x40\x00\x0f\x05\x48\x8d\x0d\xad\
\xff\xff\xff\xff\xe1\x00\x00\x00\x00\x00\x00\x00\x00\x00\x00\x00\
\xf3\x0f\x1e\xfa\xc3\xb8\x0f\x00\x00\x00\x0f\x05\x00\x00\x00\x00\
\xf3\x0f\x1e\xfa\xe8\x87\xff\xff\xff\x00\x00\x00\x00\x00\x00\x00\
\xb8\x01\x00\x00\x00\xf3\x48\x0f\xae\xe8\xb8\x0f\x00\x00\x00\x0f\
\x05\x00\x00\x00\x00\x00\x00\x00\xe8\x01\x00\x00\x00\x90\x48\x83\
\xc4\x08\xb8\x0f\x00\x00\x00\x0f\x05\x00\x00\x00\x00\x00\x00\x00\
\xf3\x0f\x1e\xfa\xb8\x38\x00\x00\x00\xbf\x00\x0f\x05\x00\xbe\x00\
\x10\x00\x00\x0f\x05\xeb\xed\x00\x00\x00\x00\x00\x00\x00\x00\x00";

const START: u64 = 0x401000;

const CALL: u64 = 0x40104a;

const AFTER: u64 = 0x40104c;

const RETURNS: u64 = 0x401060;

const RESTORER: u64 = 0x401065;

const CALLS: u64 = 0x401070;

const SKIPS: u64 = 0x401080;

const PUSHES: u64 = 0x401098;

/// Behind the CALL of `pushes`.
const RETURNS_AT_ONCE: u64 = 0x40109e;

const CLONES: u64 = 0x4010b0;

/// Handler, flags, restorer and mask of each action that rt_sigaction is given. They stand behind the program, at 0x4010d0.
const ACTIONS: [[u64; 4]; 19] = [
    [RETURNS, 0x0400_0000, RESTORER, 0],
    [RETURNS, 0x4400_0000, RESTORER, 0],
    [RETURNS, 0x1400_0004, RESTORER, 0x800],
    [0, 0x0400_0000, RESTORER, 0],
    [1, 0x0400_0000, RESTORER, 0],
    [RETURNS, 0x4000_0000, RESTORER, 0],
    [RETURNS, 0x0c00_0000, RESTORER, 0],
    [RETURNS, 0x8400_0000, RESTORER, 0],
    [RETURNS, 0x1_0400_0000, RESTORER, 0],
    [START, 0x4400_0000, RESTORER, 0],
    [CALLS, 0x4400_0000, RESTORER, 0],
    [RETURNS, 0x0400_0000, SKIPS, 0],
    [RETURNS, 0x0400_0000, PUSHES, 0],
    [CLONES, 0x0400_0000, RESTORER, 0],
    [RETURNS, 0x0400_0000, RESTORER, u64::MAX],
    [RESTORER, 0x0400_0000, RESTORER, 0],
    [RETURNS_AT_ONCE, 0x0400_0000, 0x8000_7ffd_0000_8000, 0],
    [RETURNS_AT_ONCE, 0x0400_0000, 0x8000_7ffd_0000_8001, 0],
    [RETURNS_AT_ONCE, 0x0400_0000, 0x7ffd_0000_8000, 0],
];

/// Where rsp, and with SHSTK SSP, are at the start.
const RSP: u64 = 0x7ffe_000f_ffc0;

const SSP: u64 = 0x7ffd_0001_0000;

/// Errors, as their negatives (Linux, include/uapi/asm-generic/errno-base.h and errno.h): EPERM 1, EBADF 9, EAGAIN 11, ENOMEM 12, EFAULT 14,
/// EINVAL 22, ENOSPC 28, ENOSYS 38, EOPNOTSUPP 95.
const EPERM: u64 = u64::MAX;

const EBADF: u64 = u64::MAX - 8;

const EAGAIN: u64 = u64::MAX - 10;

const ENOMEM: u64 = u64::MAX - 11;

const EFAULT: u64 = u64::MAX - 13;

const EINVAL: u64 = u64::MAX - 21;

const ENOSPC: u64 = u64::MAX - 27;

const ENOSYS: u64 = u64::MAX - 37;

const EOPNOTSUPP: u64 = u64::MAX - 94;

/// What of CET is on: bit 0 IBT, bit 1 SHSTK.
type Bits = u32;

/// What of CET is on, the input, and what happens and holds then, in order.
type Row = (Bits, &'static [u8], &'static [Act]);

/// A segment's start and size, the kind of its pages, its bytes, why it is not loaded, and what holds where it is.
type SegmentRow = (
    u64,
    u64,
    Kind,
    &'static [u8],
    Option<LoadError>,
    &'static [Act],
);

/// Start and size of two segments, Read with the byte 0x61 and Write with 0x62, why they are not loaded, and what holds where they are.
type PairRow = ((u64, u64), (u64, u64), Option<LoadError>, &'static [Act]);

#[derive(Clone, Copy)]
enum Act {
    /// A thread makes the next call, with this answer of its event: rax and arguments, 0 where none is given. It answers this.
    Call(u32, u64, &'static [u64], u64),
    /// The same, and the event of its SYSCALL comes to this.
    End(u32, &'static [u64], Outcome),
    /// A thread makes so many steps, with the answer `fresh`.
    Steps(u32, u32),
    /// So many times: a signal is delivered to a thread, whose handler returns in four steps to where the thread stood; and the thread makes a step.
    Interrupted(u32, u32, u32),
    /// A signal is delivered to a thread so many times.
    Signals(u32, u32, u32),
    /// An event comes to this.
    Apply(Event, Outcome),
    /// A thread lives, and this holds of it.
    Thread(u32, Part),
    /// The thread does not live.
    Gone(u32),
    /// How many threads were made, and which live.
    Threads(u32, u64),
    Fresh(u64),
    /// The word at an address.
    Word(u64, u64),
    /// What holds so many bytes from an address on.
    Held(u64, u64, Option<Kind>),
    Output(&'static [u8]),
    OutputSize(usize),
    Ended(Option<Outcome>),
}

/// A register of a thread, or another part of its state.
#[derive(Clone, Copy)]
enum Part {
    Reg(Reg, u64),
    Rip(u64),
    Ssp(u64),
    Mask(u64),
    Waits(bool),
    // CF, ZF, SF, OF
    Flags(bool, bool, bool, bool),
}

#[derive(Debug, Drop)]
enum Stop {
    // no bytes of a segment
    Bytes,
    Load(LoadError),
    NoMemory,
}

impl From<LoadError> for Stop {
    fn from(error: LoadError) -> Stop {
        Stop::Load(error)
    }
}

impl From<NoMemory> for Stop {
    fn from(_error: NoMemory) -> Stop {
        Stop::NoMemory
    }
}

impl From<AllocError> for Stop {
    fn from(_error: AllocError) -> Stop {
        Stop::NoMemory
    }
}

fn push_words(bytes: &mut Vec<u8>, words: &[u64], count: usize) -> Result<(), AllocError> {
    for i in 0..count {
        let word = words.get(i).copied().unwrap_or(0);
        bytes.extend_from_slice(&word.to_le_bytes())?;
    }
    Ok(())
}

/// The program with its actions, and the records of the calls of a row.
fn code_of(alloc: Global, acts: &[Act]) -> Result<Vec<u8>, AllocError> {
    let mut bytes = Vec::from_slice(alloc, PROGRAM)?;
    for action in &ACTIONS {
        push_words(&mut bytes, action, 4)?;
    }
    for act in acts {
        match act {
            Act::Call(_, _, words, _) | Act::End(_, words, _) => push_words(&mut bytes, words, 7)?,
            _ => {}
        }
    }
    Ok(bytes)
}

fn segment(alloc: Global, start: u64, size: u64, kind: Kind, bytes: &[u8]) -> Result<Segment, Stop>
    ensures regular { IfOk result IsSegment }
    ensures start { IfOk result (λ segment. segment.start ≡ start) }
    ensures size { IfOk result (λ segment. segment.size ≡ size) }
{
    if size == 0 || size > 16_777_216 || start > (1 << 47) - size || bytes.len() as u64 > size {
        return Err(Stop::Bytes);
    }
    Ok(Segment {
        start,
        size,
        readable: true,
        // pages of code may be writable too
        writable: matches!(kind, Kind::Code | Kind::Write),
        executable: matches!(kind, Kind::Code),
        bytes: Bytes::from_slice(alloc, bytes)?,
    })
}

/// The process of an image of one segment, at the segment's start.
fn process(
    alloc: Global,
    segment: Segment,
    features: Features,
    input: &[u8],
) -> Result<Process, Stop>
    requires { IsSegment segment }
{
    let entry = segment.start;
    let mut segments = SegmentList::new(alloc);
    segments.push(segment)?;
    let image = Image {
        segments,
        functions: FunctionList::new(alloc),
        slots: None,
        entry,
        features,
    };
    Ok(load(alloc, &image, input)?)
}

/// The process of an image of two segments without a byte in common.
fn process_of_two(
    alloc: Global,
    first: Segment,
    second: Segment,
    entry: u64,
    features: Features,
) -> Result<Process, Stop>
    requires first { IsSegment first }
    requires second { IsSegment second }
{
    if first.start + first.size > second.start && second.start + second.size > first.start {
        return Err(Stop::Bytes);
    }
    let mut segments = SegmentList::new(alloc);
    segments.push(first)?;
    segments.push(second)?;
    let image = Image {
        segments,
        functions: FunctionList::new(alloc),
        slots: None,
        entry,
        features,
    };
    Ok(load(alloc, &image, b"")?)
}

/// Whether a load is refused so, or without an error comes to a process of which this holds.
fn ends_so(loaded: Result<Process, Stop>, error: Option<LoadError>, facts: &[Act]) -> bool {
    match loaded {
        Ok(mut process) => error.is_none() && first_wrong(&mut process, facts).is_none(),
        Err(Stop::Load(found)) => error == Some(found),
        Err(_) => false,
    }
}

fn started(alloc: Global, row: &Row) -> Result<Process, Stop> {
    let bytes = code_of(alloc, row.2)?;
    let size = bytes.len() as u64;
    let segment = segment(alloc, START, size, Kind::Code, bytes.as_slice())?;
    process(alloc, segment, Features::from_bits_retain(row.0), row.1)
}

/// What the step of a thread comes to. None for want of memory.
fn step(process: &mut Process, thread: u32, answer: u64) -> Option<Outcome> {
    let event = Event::Step {
        thread,
        free: 0,
        answer,
    };
    process.apply(event).ok()
}

fn is_at(process: &Process, thread: u32, rip: u64) -> bool {
    match process.regs_of(thread) {
        Some(regs) => regs.rip == rip,
        None => false,
    }
}

/// What the SYSCALL of the next call comes to: the first step from there, or the first that does not come to Ran.
fn call(process: &mut Process, thread: u32, answer: u64) -> Option<Outcome> {
    for _ in 0..14 {
        let is_call = is_at(process, thread, CALL);
        let outcome = step(process, thread, answer);
        if is_call || outcome != Some(Outcome::Ran) {
            return outcome;
        }
    }
    None
}

fn steps(process: &mut Process, thread: u32, count: u32) -> bool {
    for _ in 0..count {
        let fresh = process.view().fresh;
        if step(process, thread, fresh) != Some(Outcome::Ran) {
            return false;
        }
    }
    true
}

fn delivered(process: &mut Process, thread: u32, signo: u32, count: u32) -> bool {
    for _ in 0..count {
        let event = Event::Signal { thread, signo };
        if process.apply(event).ok() != Some(Outcome::Ran) {
            return false;
        }
    }
    true
}

fn interrupted(process: &mut Process, thread: u32, signo: u32, count: u32) -> bool {
    for _ in 0..count {
        let before = process.regs_of(thread);
        let returned = delivered(process, thread, signo, 1) && steps(process, thread, 4);
        if !returned || process.regs_of(thread) != before || !steps(process, thread, 1) {
            return false;
        }
    }
    true
}

fn has(regs: &Regs, part: Part) -> bool {
    match part {
        Part::Reg(reg, v) => value(regs, reg) == v,
        Part::Rip(rip) => regs.rip == rip,
        Part::Ssp(ssp) => regs.ssp == ssp,
        Part::Mask(mask) => regs.mask == mask,
        Part::Waits(waiting) => regs.waiting == waiting,
        Part::Flags(cf, zf, sf, of) => {
            regs.flags.cf == cf && regs.flags.zf == zf && regs.flags.sf == sf && regs.flags.of == of
        }
    }
}

fn thread_has(process: &Process, thread: u32, part: Part) -> bool {
    match process.regs_of(thread) {
        Some(regs) => has(&regs, part),
        None => false,
    }
}

fn has_threads(process: &Process, threads: u32, live: u64) -> bool {
    let view = process.view();
    view.threads == threads && view.live == live
}

/// What holds of the process as it stands.
fn holds(process: &Process, act: Act) -> bool {
    match act {
        Act::Thread(thread, part) => thread_has(process, thread, part),
        Act::Gone(thread) => process.regs_of(thread).is_none(),
        Act::Threads(threads, live) => has_threads(process, threads, live),
        Act::Fresh(fresh) => process.view().fresh == fresh,
        Act::Word(a, word) => process.memory().load(a, 8) == Ok(word),
        Act::Held(a, size, kind) => size > 0 && process.memory().held(a, size) == kind,
        Act::Output(bytes) => process.output() == bytes,
        Act::OutputSize(size) => process.output().len() == size,
        Act::Ended(end) => process.ended() == end,
        _ => false,
    }
}

fn happens(process: &mut Process, act: Act) -> bool {
    match act {
        Act::Call(thread, answer, _, rax) => {
            call(process, thread, answer) == Some(Outcome::Ran)
                && thread_has(process, thread, Part::Reg(Reg::Rax, rax))
        }
        Act::End(thread, _, outcome) => call(process, thread, 0) == Some(outcome),
        Act::Steps(thread, count) => steps(process, thread, count),
        Act::Interrupted(thread, signo, count) => interrupted(process, thread, signo, count),
        Act::Signals(thread, signo, count) => delivered(process, thread, signo, count),
        Act::Apply(event, outcome) => process.apply(event).ok() == Some(outcome),
        fact => holds(process, fact),
    }
}

/// The first act of a row that does not happen, or hold.
fn first_wrong(process: &mut Process, acts: &[Act]) -> Option<usize> {
    for i in 0..acts.len() {
        if !happens(process, acts[i]) {
            return Some(i);
        }
    }
    None
}

#[test]
fn processes(rt: HostRuntime) -> Result<(), Fail> {
    for rows in [files::ROWS, mappings::ROWS, signals::ROWS, threads::ROWS] {
        for row in rows {
            let mut process = started(rt.alloc(), row)?;
            let wrong = first_wrong(&mut process, row.2);
            assert_eq!(rt; wrong, None, "of {} acts, CET {}", row.2.len(), row.0);
        }
    }
    Ok(())
}

// Segments of each kind: what they are loaded to, and what is refused.
#[test]
fn loads(rt: HostRuntime) -> Result<(), Fail> {
    for (start, size, kind, bytes, error, facts) in images::SEGMENTS {
        let segment = segment(rt.alloc(), *start, *size, *kind, bytes)?;
        let loaded = process(rt.alloc(), segment, Features::empty(), b"");
        assert!(rt; ends_so(loaded, *error, facts), "the segment at {start:#x}");
    }
    for (first, second, error, facts) in images::PAIRS {
        let low = segment(rt.alloc(), first.0, first.1, Kind::Read, b"a")?;
        let high = segment(rt.alloc(), second.0, second.1, Kind::Write, b"b")?;
        let loaded = process_of_two(rt.alloc(), low, high, first.0, Features::empty());
        assert!(rt;
            ends_so(loaded, *error, facts),
            "the segment at {:#x}",
            first.0
        );
    }
    Ok(())
}

// Who takes the one context has its address in rax, the other 0.
#[test]
fn one_context(rt: HostRuntime) -> Result<(), Fail> {
    for acts in contexts::ORDERS {
        let size = contexts::CODE.len() as u64;
        let code = segment(rt.alloc(), START, size, Kind::Code, contexts::CODE)?;
        let slots = segment(
            rt.alloc(),
            contexts::SLOTS,
            contexts::SLOTS_SIZE,
            Kind::Write,
            b"",
        )?;
        let mut process = process_of_two(
            rt.alloc(),
            code,
            slots,
            contexts::ENTRY,
            Features::all(),
        )?;
        let wrong = first_wrong(&mut process, acts);
        assert_eq!(rt; wrong, None);
    }
    Ok(())
}
