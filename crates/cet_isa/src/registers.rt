//! The state of a thread: flags, registers, and what of CET is on.

/// The four status flags that are modelled (SDM volume 1, 3.4.3.1).
#[derive(Clone, Copy, Debug, PartialEq, Eq)]
pub struct Flags {
    /// Carry.
    pub cf: bool,
    /// Zero.
    pub zf: bool,
    /// Sign.
    pub sf: bool,
    /// Overflow.
    pub of: bool,
}

/// The registers of a thread.
#[derive(Clone, Copy, Debug, PartialEq, Eq)]
pub struct Regs {
    /// The general-purpose registers, in the order of `Reg`.
    pub r: [u64; 16],
    /// The address of the next instruction.
    pub rip: u64,
    pub flags: Flags,
    /// The tracker waits for an ENDBR64 (SDM volume 1, "Indirect Branch Tracking": WAIT_FOR_ENDBRANCH).
    pub waiting: bool,
    /// The shadow stack pointer (SDM volume 1, "Shadow Stacks").
    pub ssp: u64,
    /// The signals that are blocked: bit n - 1 for signal n.
    pub mask: u64,
}

/// What of CET is on.
#[derive(Clone, Copy, Debug, PartialEq, Eq)]
pub struct Mode {
    /// Indirect branch tracking.
    pub ibt: bool,
    /// Shadow stacks.
    pub shstk: bool,
}
