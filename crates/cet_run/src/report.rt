//! Reports of runs.
use cet_base::{Bytes, Items};
use cet_isa::Fault;
use cet_process::{Event, Outcome};

/// An event that was applied, and what it came to.
#[derive(Clone, Copy, Debug, PartialEq, Eq)]
pub struct Done {
    pub event: Event,
    pub outcome: Outcome,
}

/// The events of a run with their outcomes, in order.
pub type DoneList = Items<Done>;

/// How a run ended.
#[derive(Clone, Copy, Debug, PartialEq, Eq)]
pub enum RunEnd {
    /// The process ended by itself.
    Ended { status: u8 },
    /// A fault ended the process; `rip` is the address of the instruction, or where a signal came.
    Died { thread: u32, fault: Fault, rip: u64 },
    /// As many events were applied as were allowed, and the process lives.
    LimitReached,
    /// Fewer were applied and the process lives: no event was left to choose.
    ChoicesEnded,
}

/// What a run did.
#[derive(Drop)]
pub struct Report {
    /// The events, each with its outcome.
    pub events: DoneList,
    /// The output of the process, at most 1,048,576 bytes.
    pub output: Bytes,
    /// How the run ended.
    pub last: RunEnd,
}
