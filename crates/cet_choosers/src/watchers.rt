//! The watchers of a run.
ghost use Rattle.std.specs.Prelude.{map};
ghost use Rattle.cet_choosers.specs.Watching.{GoesOn, SeenByAll, Shows};

use crate::watcher::Watcher;
use cet_process::{Event, Outcome};

/// Whether one has not seen enough.
fn goes_on<W: Watcher>(watcher: &W) -> bool
    ensures { GoesOn (W.seen watcher.now) result }
{
    !watcher.done()
}

/// All see an event, in their order.
fn show_all<W: Watcher>(watchers: &mut [W], event: Event, outcome: Outcome)
    ensures { SeenByAll (map W.seen watchers.old) event outcome (map W.seen watchers.new) }
{
    for watcher in watchers.iter_mut() {
        watcher.see(event, outcome);
    }
}

/// All see an event, in their order, and then those that have seen enough are dropped.
pub fn show<W: Watcher>(watchers: &mut Vec<W>, event: Event, outcome: Outcome)
    ensures { Shows (map W.seen watchers.old.items) (event, outcome) (map W.seen watchers.new.items) }
{
    show_all(watchers.as_mut_slice(), event, outcome);
    watchers.retain(
        |watcher: &W| -> bool
            ensures { GoesOn (W.seen watcher.now) result }
        { goes_on(watcher) },
    );
}
