//! Whole runs and their text. The code is what GNU as makes of the text above it; how it ends follows from the SDM and exit_group(2).
ghost use Rattle.std.specs.Prelude.{◌≢◌, IfOk};
ghost use Rattle.cet_rules.specs.Regular.{IsSegment};

use crate::{Done, DoneList, Event, Outcome, Process, Report, RunEnd, run_with, write_run};
use bitflags::Flags;
use cet_base::{Bytes, Failed, MemSink, NoMemory};
use cet_choosers::{Counter, RoundRobin};
use cet_isa::Fault;
use cet_kernel::load;
use cet_note::Features;
use cet_process::LoadError;
use cet_rules::{FunctionList, Image, Segment, SegmentList};
use std::alloc::{AllocError, Global};
use std::test::Fail;

#[derive(Debug, Drop)]
pub(crate) enum Stop {
    // the bytes are no code of an image
    Code,
    Load(LoadError),
    NoMemory,
    Failed,
}

impl From<LoadError> for Stop {
    fn from(error: LoadError) -> Stop {
        Stop::Load(error)
    }
}

impl From<NoMemory> for Stop {
    fn from(_error: NoMemory) -> Stop {
        Stop::NoMemory
    }
}

impl From<AllocError> for Stop {
    fn from(_error: AllocError) -> Stop {
        Stop::NoMemory
    }
}

impl From<Failed> for Stop {
    fn from(_error: Failed) -> Stop {
        Stop::Failed
    }
}

const CODE: u64 = 0x401000;

// The code as the only segment of an image without features, or with both.
fn segment(alloc: Global, code: &[u8]) -> Result<Segment, Stop>
    ensures { IfOk result IsSegment }
{
    if code.is_empty() || code.len() > 4096 {
        return Err(Stop::Code);
    }
    Ok(Segment {
        start: CODE,
        size: code.len() as u64,
        readable: true,
        writable: false,
        executable: true,
        bytes: Bytes::from_slice(alloc, code)?,
    })
}

pub(crate) fn process(alloc: Global, code: &[u8], features: Features) -> Result<Process, Stop> {
    let mut segments = SegmentList::new(alloc);
    segments.push(segment(alloc, code)?)?;
    let image = Image {
        segments,
        functions: FunctionList::new(alloc),
        slots: None,
        entry: CODE,
        features,
    };
    Ok(load(alloc, &image, b"")?)
}

// The run of the given events, and then of each living thread in turn.
fn run_in_turn(
    alloc: Global,
    process: Process,
    given: &[Event],
    limit: u32,
) -> Result<Report, NoMemory> {
    let mut choosers = Vec::new(alloc);
    choosers.push(RoundRobin::new())?;
    let mut watchers: Vec<Counter> = Vec::new(alloc);
    run_with(alloc, process, given, choosers, &mut watchers, limit)
}

// The text of a report, to an output that takes at most so many bytes in a write.
fn text_of(alloc: Global, report: &Report, most: u64) -> Result<MemSink, Stop>
    requires { most ≢ 0 }
{
    let mut out = MemSink::new(alloc, most, 65536)?;
    write_run(report, &mut out)?;
    Ok(out)
}

// The text of the run of this code.
fn run_of(
    alloc: Global,
    code: &[u8],
    cet: bool,
    given: &[Event],
    limit: u32,
) -> Result<MemSink, Stop> {
    let features = if cet {
        Features::all()
    } else {
        Features::empty()
    };
    let process = process(alloc, code, features)?;
    text_of(alloc, &run_in_turn(alloc, process, given, limit)?, 65536)
}

// 1: call 2f; ud2; 2: call 3f; 3: ret
pub(crate) const CALLS: &[u8] = b"\xe8\x02\x00\x00\x00\x0f\x0b\xe8\x00\x00\x00\x00\xc3";

// mov edi, 7; mov eax, 231; syscall
const EXIT_7: &[u8] = b"\xbf\x07\x00\x00\x00\xb8\xe7\x00\x00\x00\x0f\x05";

// mov edi, 1; mov esi, 0x401000; mov edx, 7; mov eax, 1; syscall; ud2: the first seven bytes of the code are written
const WRITES: &[u8] =
    b"\xbf\x01\x00\x00\x00\xbe\x00\x10\x40\x00\xba\x07\x00\x00\x00\xb8\x01\x00\x00\x00\x0f\x05\x0f\x0b";

// mov eax, 56; mov edi, 0x50f00; mov esi, 1; syscall; mov ebx, eax; lea rsi, [rax+0x401000]; mov edi, 1; mov edx, 1; mov eax, 1; syscall;
// mov edi, ebx; mov eax, 60; syscall: two threads, each of which writes one byte of the code and ends with what clone answered it
pub(crate) const TWO_THREADS: &[u8] =
    b"\xb8\x38\x00\x00\x00\xbf\x00\x0f\x05\x00\xbe\x01\x00\x00\x00\x0f\x05\x89\xc3\x48\x8d\xb0\x00\x10\x40\x00\xbf\x01\x00\x00\x00\xba\x01\x00\x00\x00\xb8\x01\x00\x00\x00\x0f\x05\x89\xdf\xb8\x3c\x00\x00\x00\x0f\x05";

// 1: jmp 1b
const LOOPS: &[u8] = b"\xeb\xfe";

#[test]
fn runs(rt: HostRuntime) -> Result<(), Fail> {
    let signal = Event::Signal {
        thread: 0,
        signo: 10,
    };
    let step = Event::Step {
        thread: 0,
        free: 0,
        answer: 0,
    };
    let no_thread = Event::Step {
        thread: 1,
        free: 0,
        answer: 0,
    };
    let child = Event::Step {
        thread: 1,
        free: 0,
        answer: 0,
    };
    let rows: [(&[u8], bool, &[Event], u32, &str); 20] = [
        (
            CALLS,
            false,
            &[],
            2,
            "events 2 ignored 0\noutput -\nstopped limit\n",
        ),
        (
            CALLS,
            false,
            &[],
            0,
            "events 0 ignored 0\noutput -\nstopped limit\n",
        ),
        (
            EXIT_7,
            false,
            &[],
            1_000_000,
            "events 3 ignored 0\noutput -\nended 7\n",
        ),
        (
            EXIT_7,
            false,
            &[],
            3,
            "events 3 ignored 0\noutput -\nended 7\n",
        ),
        (
            EXIT_7,
            false,
            &[],
            2,
            "events 2 ignored 0\noutput -\nstopped limit\n",
        ),
        (
            LOOPS,
            false,
            &[],
            1,
            "events 1 ignored 0\noutput -\nstopped limit\n",
        ),
        // no action is registered, there is no second thread
        (
            EXIT_7,
            false,
            &[signal, step, no_thread],
            1_000_000,
            "events 5 ignored 2\noutput -\nended 7\n",
        ),
        // what is given after the end is not applied
        (
            EXIT_7,
            false,
            &[step, step, step, step],
            9,
            "events 3 ignored 0\noutput -\nended 7\n",
        ),
        (
            WRITES,
            false,
            &[],
            9,
            "events 6 ignored 0\noutput bf01000000be00\ndied thread 0 ud at 0x401016\n",
        ),
        // the child makes the first step after the clone, then the two in turn
        (
            TWO_THREADS,
            true,
            &[],
            99,
            "events 22 ignored 0\noutput b800\nended 2\n",
        ),
        // the caller ends first
        (
            TWO_THREADS,
            false,
            &[
                step, step, step, step, step, step, step, step, step, step, step, step, step,
            ],
            99,
            "events 22 ignored 0\noutput 00b8\nended 0\n",
        ),
        // the child waits for its turn, and has ended then
        (
            TWO_THREADS,
            false,
            &[
                child, step, step, step, step, child, child, child, child, child, child, child,
                child, child, child,
            ],
            99,
            "events 24 ignored 2\noutput b800\nended 2\n",
        ),
        // hlt
        (
            b"\xf4",
            false,
            &[],
            9,
            "events 1 ignored 0\noutput -\ndied thread 0 gp at 0x401000\n",
        ),
        // mov rax, [0x10]
        (
            b"\x48\x8b\x04\x25\x10\x00\x00\x00",
            false,
            &[],
            9,
            "events 1 ignored 0\noutput -\ndied thread 0 pf at 0x401000 addr 0x10\n",
        ),
        // div rax, where rax is 0
        (
            b"\x48\xf7\xf0",
            false,
            &[],
            9,
            "events 1 ignored 0\noutput -\ndied thread 0 de at 0x401000\n",
        ),
        // lea rax, [rip+2]; jmp rax, to an instruction that is no ENDBR64
        (
            b"\x48\x8d\x05\x02\x00\x00\x00\xff\xe0\x90",
            true,
            &[],
            9,
            "events 3 ignored 0\noutput -\ndied thread 0 cp 3 at 0x401009\n",
        ),
        // call 1f; nop; 1: push rax; ret, where rax is 0
        (
            b"\xe8\x01\x00\x00\x00\x90\x50\xc3",
            true,
            &[],
            9,
            "events 3 ignored 0\noutput -\ndied thread 0 cp 1 at 0x401007 popped 0x0 shadow 0x401005\n",
        ),
        // call 1f; nop; 1: rdsspq rax; rstorssp [rax], where no token is
        (
            b"\xe8\x01\x00\x00\x00\x90\xf3\x48\x0f\x1e\xc8\xf3\x0f\x01\x28",
            true,
            &[],
            9,
            "events 3 ignored 0\noutput -\ndied thread 0 cp 4 at 0x40100b word 0x401005\n",
        ),
        // mov eax, 15; syscall, where no frame has room
        (
            b"\xb8\x0f\x00\x00\x00\x0f\x05",
            true,
            &[],
            9,
            "events 2 ignored 0\noutput -\ndied thread 0 pf at 0x401005 addr 0x7ffe000fffb8\n",
        ),
        // mov eax, 13; mov edi, 10; mov esi, 1f; mov r10d, 8; mov esp, 0x1000; syscall; 1: .quad 0x401000, 0x04000000: a signal without a stack
        (
            b"\xb8\x0d\x00\x00\x00\xbf\x0a\x00\x00\x00\xbe\x1c\x10\x40\x00\x41\xba\x08\x00\x00\x00\xbc\x00\x10\x00\x00\x0f\x05\x00\x10\x40\x00\x00\x00\x00\x00\x00\x00\x00\x04\x00\x00\x00\x00",
            false,
            &[step, step, step, step, step, step, signal],
            9,
            "events 7 ignored 0\noutput -\ndied thread 0 pf at 0x40101c addr 0xea8\n",
        ),
    ];
    for (code, cet, given, limit, text) in rows {
        let out = run_of(rt.alloc(), code, cet, given, limit)?;
        assert_eq!(rt; out.bytes(), text.as_bytes(), "{code:?} {limit}");
    }
    Ok(())
}

// The line of each end, by hand.
#[test]
fn ends(rt: HostRuntime) -> Result<(), Fail> {
    let died = |fault| RunEnd::Died {
        thread: 63,
        fault,
        rip: 0xabc,
    };
    let top = u64::MAX;
    let rows: [(RunEnd, &str); 11] = [
        (RunEnd::Ended { status: 0 }, "ended 0\n"),
        (RunEnd::Ended { status: 255 }, "ended 255\n"),
        (RunEnd::LimitReached, "stopped limit\n"),
        (RunEnd::ChoicesEnded, "stopped choices\n"),
        (
            died(Fault::NearRet {
                popped: 0,
                shadow: top,
            }),
            "died thread 63 cp 1 at 0xabc popped 0x0 shadow 0xffffffffffffffff\n",
        ),
        (died(Fault::EndBranch), "died thread 63 cp 3 at 0xabc\n"),
        (
            died(Fault::Rstor { word: 0x10 }),
            "died thread 63 cp 4 at 0xabc word 0x10\n",
        ),
        (
            died(Fault::Page { addr: top }),
            "died thread 63 pf at 0xabc addr 0xffffffffffffffff\n",
        ),
        (died(Fault::Undefined), "died thread 63 ud at 0xabc\n"),
        (died(Fault::General), "died thread 63 gp at 0xabc\n"),
        (died(Fault::Divide), "died thread 63 de at 0xabc\n"),
    ];
    for (last, text) in rows {
        let report = Report {
            events: DoneList::new(rt.alloc()),
            output: Bytes::new(rt.alloc()),
            last,
        };
        let out = text_of(rt.alloc(), &report, 7)?;
        let line = out.bytes().get(28..).ok_or("no line")?;
        assert_eq!(rt; line, text.as_bytes());
    }
    Ok(())
}

// More output than makes one piece, and a sink that is full.
#[test]
fn outputs(rt: HostRuntime) -> Result<(), Fail> {
    let report = Report {
        events: DoneList::new(rt.alloc()),
        output: Bytes::from_slice(rt.alloc(), &[0xa5; 5000])?,
        last: RunEnd::LimitReached,
    };
    let out = text_of(rt.alloc(), &report, 1000)?;
    assert_eq!(rt; out.bytes().len(), 10_041);
    let seam = out.bytes().get(4118..4126).ok_or("no seam")?;
    assert_eq!(rt; seam, b"a5a5a5a5".as_slice());
    let mut full = MemSink::new(rt.alloc(), 1000, 27)?;
    assert!(rt; write_run(&report, &mut full).is_err());
    assert_eq!(rt; full.bytes(), b"events 0 ignored 0\noutput a".as_slice());
    Ok(())
}

// A loop up to a limit: each event is a step of the one thread, with the same answer, and ran.
#[test]
fn a_long_loop(rt: HostRuntime) -> Result<(), Fail> {
    let process = process(rt.alloc(), LOOPS, Features::empty())?;
    let report = run_in_turn(rt.alloc(), process, &[], 20_000)?;
    assert_eq!(rt; report.events.len(), 20_000);
    assert_eq!(rt; report.last, RunEnd::LimitReached);
    let event = Event::Step {
        thread: 0,
        free: 0,
        answer: 0x1_0000_0000,
    };
    let done = Done {
        event,
        outcome: Outcome::Ran,
    };
    assert_eq!(rt; report.events.get(19_999), Some(&done));
    let out = text_of(rt.alloc(), &report, 65536)?;
    assert_eq!(rt;
        out.bytes(),
        b"events 20000 ignored 0\noutput -\nstopped limit\n".as_slice()
    );
    Ok(())
}
