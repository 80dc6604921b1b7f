//! Processes: how an image is loaded, and what each event does to a process. They meet the definitions of `cet_process`: `load` computes `start`
//! (`specs/Start.antt`), and `Process::apply` computes `after` (`specs/After.antt`, with the system calls of `specs/Call.antt`). A process is seen as a
//! `State`. The calls and their errors are those of Linux for x86-64, in this project's profile of their arguments.
#![tactic(auto)]

mod calls;
mod events;
mod layout;
mod loading;
mod process;
#[cfg(test)]
mod tests;

pub use cet_process::{Event, LoadError, Outcome, View};
pub use loading::load;
pub use process::Process;
