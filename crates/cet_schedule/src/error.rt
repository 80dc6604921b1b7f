//! What is wrong with a text of a schedule.

ghost use Rattle.cet_schedule.specs.declared.error.ScheduleError.TheVariants as errors;
ghost use Rattle.std.specs.Prelude.{◌≡◌};

use cet_base::NoMemory;
use thiserror::Error;

/// The first line of a text that is wrong, counted from 1, or want of memory.
#[derive(Clone, Copy, Debug, PartialEq, Eq, Error)]
pub enum ScheduleError {
    /// The line is none of those that a schedule has, or no line feed ends it.
    #[error("line {line} is no line of a schedule")]
    Line { line: u32 },
    /// With this line there are more than 1,000,000 events.
    #[error("line {line} takes the events past 1,000,000")]
    TooMany { line: u32 },
    /// There was no memory for the events.
    #[error("out of memory")]
    NoMemory,
}

impl From<NoMemory> for ScheduleError {
    ghost from_gives = { λ _ e. e ≡ errors.NoMemory };

    fn from(_refused: NoMemory) -> ScheduleError {
        ScheduleError::NoMemory
    }
}
