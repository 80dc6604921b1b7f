//! Those who choose the events of a run, and those who see them. A `Chooser` follows a plan, where it tells one; a `Watcher` counts the events that
//! it saw, where it tells that. `RoundRobin` and `Counter` are the ones that the program hands in.
#![tactic(auto)]

mod chooser;
mod choosers;
mod counter;
mod living;
mod round_robin;
mod watcher;
mod watchers;

pub use chooser::Chooser;
pub use choosers::next_event;
pub use counter::Counter;
pub use round_robin::RoundRobin;
pub use watcher::Watcher;
pub use watchers::show;
