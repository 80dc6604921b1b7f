//! Runs of one process, and their text. `run` applies the given events, and then those that choosers answer which the caller hands in, up to a limit;
//! watchers of the caller see each. It reports each event with its outcome, by the definitions of `specs/Report.antt` and `specs/Run.antt`. `run`
//! takes boxes, so that several types take part, and `run_with` choosers of one type and watchers of one. `write_run` writes the three lines of a
//! report, by `specs/Text.antt`. The laws of `law` say what the limit does.
#![tactic(auto)]

#[cfg(test)]
mod box_tests;
#[cfg(test)]
mod example_tests;
pub mod law;
mod report;
mod running;
#[cfg(test)]
mod tests;
mod writing;

pub use cet_choosers::{Chooser, Counter, RoundRobin, Watcher};
pub use cet_kernel::{Event, Outcome, Process};
pub use report::{Done, DoneList, Report, RunEnd};
pub use running::{run, run_with};
pub use writing::write_run;
