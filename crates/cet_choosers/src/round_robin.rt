//! Each living thread in turn.
ghost use Rattle.std.specs.Prelude.{◌≡◌, None};

use crate::chooser::Chooser;
use crate::living::next_living;
use cet_process::{Event, View};
use std::marker::Model;

/// Steps each living thread in turn, in the order of their numbers and round, with free 0 and the answer `View::fresh`. The first step is that of
/// the living thread of the least number. Contracts see the thread that it stepped last, if there was one.
#[derive(Drop)]
pub struct RoundRobin {
    // the number after that of the last thread, or 0
    from: u32,
}

impl Model for RoundRobin {
    ghost use Rattle.std.specs.Prelude.{ℕ, Option};
    ghost use Rattle.cet_choosers.specs.Plans.{below};

    ghost Value = { Option ℕ };

    ghost view = { λ round. below round.from };
}

impl RoundRobin {
    /// One that has stepped no thread.
    pub fn new() -> RoundRobin
        ensures { result ≡ None }
    {
        RoundRobin { from: 0 }
    }
}

impl Chooser for RoundRobin {
    ghost use Rattle.std.specs.Prelude.{Some};
    ghost use Rattle.cet_process.specs.Chosen.{Round};

    ghost plan = { λ last. Some (Round last) };

    fn next(&mut self, view: View) -> Option<Event> {
        let thread = next_living(view, self.from)?;
        self.from = thread + 1;
        Some(Event::Step {
            thread,
            free: 0,
            answer: view.fresh,
        })
    }
}
