//! Choosers and watchers of a caller's own, handed to `top`. The program is `call 2f; ud2; 2: call 3f; 3: ret`, whose third step ends it.
ghost use Rattle.std.specs.Prelude.{Some, None, []};
ghost use Rattle.cet_process.specs.Chosen.{Listed};

use super::*;
use cet_process::{Event, Outcome, View};

const CALLS: &[u8] = b"\xe8\x02\x00\x00\x00\x0f\x0b\xe8\x00\x00\x00\x00\xc3";

/// Has no event, and tells it.
#[derive(Drop)]
struct Empty;

impl Chooser for Empty {
    ghost plan = { λ _. Some (Listed []) };

    fn next(&mut self, _view: View) -> Option<Event> {
        None
    }
}

/// Answers one event for ever, and does not tell it.
#[derive(Drop)]
struct Endless(Event);

impl Chooser for Endless {
    ghost plan = { λ _. None };

    fn next(&mut self, _view: View) -> Option<Event> {
        Some(self.0)
    }
}

/// Has enough after so many events, and does not tell it.
#[derive(Drop)]
struct Few {
    wanted: u64,
}

impl Watcher for Few {
    ghost seen = { λ _. None };

    fn see(&mut self, _event: Event, _outcome: Outcome) {
        self.wanted = self.wanted.saturating_sub(1);
    }

    fn done(&self) -> bool {
        self.wanted == 0
    }
}

#[derive(Clone, Copy)]
enum Kind {
    Empty,
    Endless(Event),
    Round,
}

/// The choosers, the words, the room of the output.
type Row<'a> = (&'a [Kind], &'a [&'a str], u64);

// What `top` answers, and how many watchers it leaves of a counter and of one that has enough at the second event.
fn told(alloc: Global, row: Row<'_>) -> Result<(Answer, usize), NoMemory> {
    let (kinds, words, room) = row;
    let mut texts = Vec::new(alloc);
    for word in words {
        texts.push(String::from_str(alloc, word)?)?;
    }
    let mut choosers: Vec<Box<dyn Chooser>> = Vec::new(alloc);
    for kind in kinds {
        match *kind {
            Kind::Empty => choosers.push(Box::new(alloc, Empty)?)?,
            Kind::Endless(event) => choosers.push(Box::new(alloc, Endless(event))?)?,
            Kind::Round => choosers.push(Box::new(alloc, RoundRobin::new())?)?,
        }
    }
    let mut watchers: Vec<Box<dyn Watcher>> = Vec::new(alloc);
    watchers.push(Box::new(alloc, Few { wanted: 2 })?)?;
    watchers.push(Box::new(alloc, Counter::new())?)?;
    let mut files = holding(alloc, CALLS)?;
    let mut out = MemSink::new(alloc, 100, room)?;
    let mut err = MemSink::new(alloc, 100, 100)?;
    let status = top(
        alloc,
        &texts,
        &mut files,
        &mut out,
        &mut err,
        choosers,
        &mut watchers,
    );
    Ok((Answer { status, out, err }, watchers.len()))
}

const DIED: &str =
    "events 3 ignored 0\noutput -\ndied thread 0 cp 1 at 0x40100c popped 0x40100c shadow 0x401005\n";

const NO_EVENT: &str = "events 0 ignored 0\noutput -\nstopped choices\n";

const TWO_IGNORED: &str = "events 2 ignored 2\noutput -\nstopped limit\n";

const LOST: Kind = Kind::Endless(Event::Step {
    thread: 1,
    free: 0,
    answer: 0,
});

const FREE: Kind = Kind::Endless(Event::Step {
    thread: 0,
    free: 16,
    answer: 0,
});

const SIGNAL_0: Kind = Kind::Endless(Event::Signal {
    thread: 0,
    signo: 0,
});

const SIGNAL_65: Kind = Kind::Endless(Event::Signal {
    thread: 0,
    signo: 65,
});

const WHOLE: &[&str] = &["run", "--raw", "a"];

const TWO_EVENTS: &[&str] = &["run", "--raw", "--limit", "2", "a"];

// A row, the output, the status, and how many watchers are left.
const ROWS: &[(Row<'static>, &str, u8, usize)] = &[
    ((&[], WHOLE, 200), NO_EVENT, 0, 2),
    ((&[Kind::Empty, Kind::Empty], WHOLE, 200), NO_EVENT, 0, 2),
    ((&[Kind::Empty, Kind::Round], WHOLE, 200), DIED, 1, 1),
    ((&[Kind::Round, LOST], WHOLE, 200), DIED, 1, 1),
    ((&[LOST, Kind::Round], TWO_EVENTS, 200), TWO_IGNORED, 0, 1),
    ((&[FREE], TWO_EVENTS, 200), TWO_IGNORED, 0, 1),
    ((&[SIGNAL_0], TWO_EVENTS, 200), TWO_IGNORED, 0, 1),
    ((&[SIGNAL_65], TWO_EVENTS, 200), TWO_IGNORED, 0, 1),
    (
        (&[LOST], &["run", "--raw", "--limit", "1", "a"], 200),
        "events 1 ignored 1\noutput -\nstopped limit\n",
        0,
        2,
    ),
    // The output is full, after the run.
    ((&[Kind::Round], WHOLE, 20), "events 3 ignored 0\no", 5, 1),
    // Nothing is run.
    ((&[Kind::Round], &["run", "--raw", "b"], 200), "", 3, 2),
    ((&[Kind::Round], &["run", "a"], 200), "", 6, 2),
    ((&[Kind::Round], &["run"], 200), "", 2, 2),
    (
        (&[Kind::Round], &["check", "--raw", "a"], 200),
        "refused rule 6 at 0x401000\n",
        1,
        2,
    ),
];

#[test]
fn choosers_and_watchers(rt: HostRuntime) -> Result<(), Fail> {
    for (row, text, status, left) in ROWS {
        let (answer, watchers) = told(rt.alloc(), *row)?;
        assert_eq!(rt; answer.out.bytes(), text.as_bytes(), "for {status}");
        assert_eq!(rt; answer.status, *status);
        assert_eq!(rt; watchers, *left);
    }
    Ok(())
}
