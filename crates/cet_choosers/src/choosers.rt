//! The choosers of a run that are left, of which the next one stands last.
ghost use Rattle.std.specs.Prelude.{reverse, map};
ghost use Rattle.cet_choosers.specs.Plans.{Chooses};

use crate::chooser::Chooser;
use cet_process::{Event, View};

/// The next event: that of the last chooser that has one. Those behind it are dropped.
pub fn next_event<C: Chooser>(choosers: &mut Vec<C>, view: View) -> Option<Event>
    ensures { Chooses (map C.plan (reverse choosers.old.items)) view result (map C.plan (reverse choosers.new.items)) }
{
    while let Some(chooser) = choosers.last_mut() {
        if let Some(event) = chooser.next(view) {
            return Some(event);
        }
        choosers.pop();
    }
    None
}
