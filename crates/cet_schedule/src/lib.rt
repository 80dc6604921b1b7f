//! Texts of schedules, which name the events of a run in order. `read_schedule` gives the events of a text, or its first line that is wrong, by
//! the definition `schedule` of `specs/Schedule.antt`. The format is this project's own.
#![tactic(auto)]

mod error;
mod fields;
mod line;
mod number;
mod reading;
#[cfg(test)]
mod tests;

pub use error::ScheduleError;
pub use reading::{EventList, read_schedule};
