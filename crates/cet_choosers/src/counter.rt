//! A count of events.
ghost use Rattle.std.specs.Prelude.{◌≡◌, None};

use crate::watcher::Watcher;
use cet_process::{Event, Outcome};
use std::marker::Model;

/// Counts the events that it sees, and never has enough. Contracts see the number, and the last event with its outcome.
#[derive(Drop)]
pub struct Counter {
    number: u64,
    last: Option<(Event, Outcome)>,
}

impl Model for Counter {
    ghost use Rattle.std.specs.Prelude.{ℕ, Option};
    ghost use Rattle.cet_choosers.specs.Watching.{Pair};

    ghost Value = { ℕ × Option Pair };

    ghost view = { λ counter. (counter.number, counter.last) };
}

impl Counter {
    /// One that has seen nothing.
    pub fn new() -> Counter
        ensures { result ≡ (0, None) }
    {
        Counter {
            number: 0,
            last: None,
        }
    }
}

impl Watcher for Counter {
    ghost use Rattle.std.specs.Prelude.{Some};

    ghost seen = { λ counter. Some (record { number = counter.0; last = counter.1; limit = None }) };

    fn see(&mut self, event: Event, outcome: Outcome) {
        self.number = self.number.saturating_add(1);
        self.last = Some((event, outcome));
    }

    fn done(&self) -> bool {
        false
    }
}
