//! Watchers of events.
ghost use Rattle.std.specs.Prelude.{Option};
ghost use Rattle.cet_choosers.specs.Watching.{Seen, Sees, TellsDone};

use cet_process::{Event, Outcome};

/// Who sees each event of a run.
pub trait Watcher: Drop {
    // What it has seen, where it is told.
    ghost seen: { Self → Option Seen };

    /// Sees an event and what it came to.
    fn see(&mut self, event: Event, outcome: Outcome)
        ensures { Sees (seen self.old) event outcome (seen self.new) };

    /// Whether it has seen enough.
    fn done(&self) -> bool
        ensures { TellsDone (seen self.now) result };
}

impl Watcher for Box<dyn Watcher> {
    ghost seen = { λ watcher. (Watcher-box watcher).seen watcher.value };

    fn see(&mut self, event: Event, outcome: Outcome) {
        (**self).see(event, outcome);
    }

    fn done(&self) -> bool {
        (**self).done()
    }
}
