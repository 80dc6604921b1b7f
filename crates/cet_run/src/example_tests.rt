//! How a caller writes choosers and watchers of its own; docs/choosers.md explains it.
ghost use Rattle.std.specs.Prelude.{Some, None, drop};
ghost use Rattle.cet_process.specs.Chosen.{Listed};

use crate::tests::process;
use crate::{Event, Outcome, RunEnd, run_with};
use bitflags::Flags;
use cet_choosers::{Chooser, Watcher};
use cet_note::Features;
use cet_process::View;
use std::cell::Cell;
use std::rc::Rc;
use std::test::Fail;

/// A chooser that tells its plan: these events, from the index `next` on.
#[derive(Drop)]
pub(crate) struct Script {
    pub(crate) events: Vec<Event>,
    pub(crate) next: usize,
}

impl Chooser for Script {
    ghost plan = { λ script. Some (Listed (drop script.next script.events.items)) };

    fn next(&mut self, _view: View) -> Option<Event> {
        if self.next < self.events.len() {
            let event = self.events[self.next];
            self.next += 1;
            Some(event)
        } else {
            None
        }
    }
}

/// A chooser that keeps its plan to itself: it steps thread 0, and in place of every tenth step sends it a signal.
#[derive(Drop)]
struct Interrupts {
    signo: u32,
    asked: u64,
}

impl Chooser for Interrupts {
    ghost plan = { λ _. None };

    fn next(&mut self, view: View) -> Option<Event> {
        self.asked = self.asked.wrapping_add(1);
        if self.asked % 10 == 0 {
            return Some(Event::Signal {
                thread: 0,
                signo: self.signo,
            });
        }
        Some(Event::Step {
            thread: 0,
            free: 0,
            answer: view.fresh,
        })
    }
}

/// A watcher that tells what it has seen: it has enough at this number of events. Its owner reads `shown` while a run has the watcher.
#[derive(Drop)]
pub(crate) struct Few {
    pub(crate) number: u64,
    pub(crate) last: Option<(Event, Outcome)>,
    pub(crate) limit: u64,
    pub(crate) shown: Rc<Cell<u64>>,
}

impl Watcher for Few {
    ghost seen = { λ few. Some (record { number = few.number; last = few.last; limit = Some few.limit }) };

    fn see(&mut self, event: Event, outcome: Outcome) {
        self.number = self.number.saturating_add(1);
        self.last = Some((event, outcome));
        self.shown.set(self.shown.get().wrapping_add(1));
    }

    fn done(&self) -> bool {
        self.limit <= self.number
    }
}

/// A watcher that keeps what it has seen to itself: it counts the signals that were delivered, and never has enough.
#[derive(Drop)]
struct Deliveries {
    count: u64,
}

impl Watcher for Deliveries {
    ghost seen = { λ _. None };

    fn see(&mut self, event: Event, outcome: Outcome) {
        if let (Event::Signal { .. }, Outcome::Ran) = (event, outcome) {
            self.count = self.count.saturating_add(1);
        }
    }

    fn done(&self) -> bool {
        false
    }
}

// mov eax, 13; mov edi, 10; mov esi, action; mov edx, 0; mov r10d, 8; syscall; 1: jmp 1b; restorer: mov eax, 15; syscall; handler: ret;
// action: .quad handler, 0x04000000, restorer, 0
const ACTS: &[u8] =
    b"\xb8\x0d\x00\x00\x00\xbf\x0a\x00\x00\x00\xbe\x28\x10\x40\x00\xba\x00\x00\x00\x00\x41\xba\x08\x00\x00\x00\x0f\x05\xeb\xfe\xb8\x0f\
\x00\x00\x00\x0f\x05\xc3\x66\x90\x25\x10\x40\x00\x00\x00\x00\x00\x00\x00\x00\x04\x00\x00\x00\x00\x1e\x10\x40\x00\x00\x00\x00\x00\
\x00\x00\x00\x00\x00\x00\x00\x00";

// Of 35 events the tenth, twentieth and thirtieth are signals, each of which enters the handler and returns.
#[test]
fn signals_are_counted(rt: HostRuntime) -> Result<(), Fail> {
    let process = process(rt.alloc(), ACTS, Features::empty())?;
    let mut choosers = Vec::new(rt.alloc());
    choosers.push(Interrupts {
        signo: 10,
        asked: 0,
    })?;
    let mut watchers = Vec::new(rt.alloc());
    watchers.push(Deliveries { count: 0 })?;
    let report = run_with(rt.alloc(), process, &[], choosers, &mut watchers, 35)?;
    assert_eq!(rt; report.events.len(), 35);
    assert_eq!(rt; report.last, RunEnd::LimitReached);
    let deliveries = watchers.first().ok_or("no watcher is left")?;
    assert_eq!(rt; deliveries.count, 3);
    Ok(())
}
