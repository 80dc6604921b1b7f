//! Choosers and watchers of a caller's own. The process is `call 2f; ud2; 2: call 3f; 3: ret`, with both features: its third step is a RET to an
//! address that is not the one on the shadow stack.
ghost use Rattle.std.specs.Prelude.{None};

use crate::example_tests::{Few, Script};
use crate::tests::{CALLS, TWO_THREADS, process};
use crate::{Event, Outcome, Report, RunEnd, run};
use bitflags::Flags;
use cet_choosers::{Chooser, Counter, RoundRobin, Watcher};
use cet_isa::Fault;
use cet_note::Features;
use cet_process::View;
use std::alloc::Global;
use std::cell::Cell;
use std::rc::Rc;
use std::test::Fail;

// Answers the same event for ever, and does not tell it.
#[derive(Drop)]
struct Endless(Event);

impl Chooser for Endless {
    ghost plan = { λ _. None };

    fn next(&mut self, _view: View) -> Option<Event> {
        Some(self.0)
    }
}

// None of them can happen.
const BAD: &[Event] = &[
    Event::Step {
        thread: 9,
        free: 0,
        answer: 0,
    },
    Event::Step {
        thread: 4_294_967_295,
        free: 0,
        answer: 0,
    },
    Event::Step {
        thread: 0,
        free: 16,
        answer: 0,
    },
    Event::Signal {
        thread: 0,
        signo: 0,
    },
    Event::Signal {
        thread: 0,
        signo: 65,
    },
];

// There is no such thread.
const LOST_STEP: Event = Event::Step {
    thread: 9,
    free: 0,
    answer: 0,
};

const LOST: &[Event] = &[Event::Step {
    thread: 9,
    free: 0,
    answer: 0,
}];

const FIRST: &[Event] = &[Event::Step {
    thread: 0,
    free: 0,
    answer: 0,
}];

#[derive(Clone, Copy)]
struct Row {
    given: &'static [Event],
    scripts: &'static [&'static [Event]],
    endless: bool,
    round: bool,
    limit: u32,
}

fn run_row(alloc: Global, row: &Row, watchers: &mut Vec<Box<dyn Watcher>>) -> Result<Report, Fail> {
    let process = process(alloc, CALLS, Features::all())?;
    let mut choosers: Vec<Box<dyn Chooser>> = Vec::new(alloc);
    for script in row.scripts {
        let events = Vec::from_slice(alloc, script)?;
        choosers.push(Box::new(alloc, Script { events, next: 0 })?)?;
    }
    if row.endless {
        choosers.push(Box::new(alloc, Endless(LOST_STEP))?)?;
    }
    if row.round {
        choosers.push(Box::new(alloc, RoundRobin::new())?)?;
    }
    Ok(run(alloc, process, row.given, choosers, watchers, row.limit)?)
}

fn ignored(report: &Report) -> usize {
    report
        .events
        .as_slice()
        .iter()
        .filter(|done| matches!(done.outcome, Outcome::Ignored))
        .count()
}

const DIED: RunEnd = RunEnd::Died {
    thread: 0,
    fault: Fault::NearRet {
        popped: 0x40_100c,
        shadow: 0x40_1005,
    },
    rip: 0x40_100c,
};

fn case(
    given: &'static [Event],
    scripts: &'static [&'static [Event]],
    endless: bool,
    round: bool,
    limit: u32,
) -> Row {
    Row {
        given,
        scripts,
        endless,
        round,
        limit,
    }
}

// How many events were applied, how many of them were ignored, and how the run ended.
#[test]
fn choices(rt: HostRuntime) -> Result<(), Fail> {
    let rows: [(Row, usize, usize, RunEnd); 11] = [
        (
            case(&[], &[BAD], false, false, 10),
            5,
            5,
            RunEnd::ChoicesEnded,
        ),
        (
            case(&[], &[BAD], false, false, 5),
            5,
            5,
            RunEnd::LimitReached,
        ),
        (case(&[], &[BAD], false, true, 10), 8, 5, DIED),
        (
            case(&[], &[], true, false, 10),
            10,
            10,
            RunEnd::LimitReached,
        ),
        (case(&[], &[], true, true, 10), 10, 10, RunEnd::LimitReached),
        (
            case(LOST, &[], false, false, 1_000_000),
            1,
            1,
            RunEnd::ChoicesEnded,
        ),
        (case(&[], &[], false, false, 10), 0, 0, RunEnd::ChoicesEnded),
        (case(&[], &[], false, true, 0), 0, 0, RunEnd::LimitReached),
        (
            case(&[], &[&[], &[], BAD, &[]], false, false, 10),
            5,
            5,
            RunEnd::ChoicesEnded,
        ),
        (
            case(BAD, &[BAD, FIRST], false, false, 20),
            11,
            10,
            RunEnd::ChoicesEnded,
        ),
        (case(BAD, &[&[]], false, true, 20), 8, 5, DIED),
    ];
    for (row, applied, ignored_ones, last) in &rows {
        let mut watchers: Vec<Box<dyn Watcher>> = Vec::new(rt.alloc());
        let report = run_row(rt.alloc(), row, &mut watchers)?;
        assert_eq!(rt; report.events.len(), *applied);
        assert_eq!(rt; ignored(&report), *ignored_ones);
        assert_eq!(rt; report.last, *last);
    }
    Ok(())
}

const CALLER: Event = Event::Step {
    thread: 0,
    free: 0,
    answer: 0,
};

const CHILD: Event = Event::Step {
    thread: 1,
    free: 0,
    answer: 0,
};

// Four steps of the caller, nine of its child, which then has ended, and two more of the child.
const CHILD_FIRST: &[Event] = &[
    CALLER, CALLER, CALLER, CALLER, CHILD, CHILD, CHILD, CHILD, CHILD, CHILD, CHILD, CHILD, CHILD,
    CHILD, CHILD,
];

// A chooser goes on to name a thread that has ended; the next one then steps the thread that lives.
#[test]
fn an_ended_thread(rt: HostRuntime) -> Result<(), Fail> {
    let process = process(rt.alloc(), TWO_THREADS, Features::empty())?;
    let events = Vec::from_slice(rt.alloc(), CHILD_FIRST)?;
    let mut choosers: Vec<Box<dyn Chooser>> = Vec::new(rt.alloc());
    choosers.push(Box::new(rt.alloc(), Script { events, next: 0 })?)?;
    choosers.push(Box::new(rt.alloc(), RoundRobin::new())?)?;
    let mut watchers: Vec<Box<dyn Watcher>> = Vec::new(rt.alloc());
    let report = run(rt.alloc(), process, &[], choosers, &mut watchers, 99)?;
    assert_eq!(rt; report.events.len(), 24);
    assert_eq!(rt; ignored(&report), 2);
    assert_eq!(rt; report.last, RunEnd::Ended { status: 2 });
    Ok(())
}

// Who was shown how many of eight events, and how many watchers are left.
#[test]
fn watchers(rt: HostRuntime) -> Result<(), Fail> {
    let rows: [(u64, u64, u64); 7] = [
        (0, 1, 1),
        (0, 3, 3),
        (5, 3, 1),
        (0, 8, 8),
        (0, 9, 8),
        (u64::MAX, u64::MAX, 1),
        (0, u64::MAX, 8),
    ];
    let row = case(&[], &[BAD], false, true, 10);
    let mut watchers: Vec<Box<dyn Watcher>> = Vec::new(rt.alloc());
    let mut counts = Vec::new(rt.alloc());
    for (number, limit, _) in rows {
        let shown = Rc::new(rt.alloc(), Cell::new(0))?;
        counts.push(shown.clone()?)?;
        let last = None;
        watchers.push(Box::new(
            rt.alloc(),
            Few {
                number,
                last,
                limit,
                shown,
            },
        )?)?;
    }
    watchers.push(Box::new(rt.alloc(), Counter::new())?)?;
    let _report = run_row(rt.alloc(), &row, &mut watchers)?;
    for ((_, _, wanted), count) in rows.iter().zip(&counts) {
        assert_eq!(rt; count.get(), *wanted);
    }
    assert_eq!(rt; watchers.len(), 3);
    Ok(())
}
