use cet_isa::Fault;

/// What an event came to.
#[derive(Clone, Copy, Debug, PartialEq, Eq)]
pub enum Outcome {
    /// It happened, and the process lives.
    Ran,
    /// It could not happen, and nothing has changed.
    Ignored,
    /// The process ended by itself.
    Ended { status: u8 },
    /// A fault ended the process; `rip` is the address of the instruction, or where a signal came.
    Died { thread: u32, fault: Fault, rip: u64 },
}
