//! Choosers of events.
ghost use Rattle.std.specs.Prelude.{Option};
ghost use Rattle.cet_process.specs.Chosen.{Plan};
ghost use Rattle.cet_choosers.specs.Plans.{Answers};

use cet_process::{Event, View};

/// Who chooses the next event of a run.
pub trait Chooser: Drop {
    // The plan that is left, where it is told.
    ghost plan: { Self → Option Plan };

    /// The next event, or `None` where there is none any more.
    fn next(&mut self, view: View) -> Option<Event>
        ensures { Answers (plan self.old) view result (plan self.new) };
}

impl Chooser for Box<dyn Chooser> {
    ghost plan = { λ chooser. (Chooser-box chooser).plan chooser.value };

    fn next(&mut self, view: View) -> Option<Event> {
        (**self).next(view)
    }
}
