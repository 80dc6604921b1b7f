//! The statuses that the program ends with.

/// The work was done; `check` accepted.
pub const DONE: u8 = 0;

/// `check` names a broken rule.
pub const REFUSED: u8 = 1;

/// `link` tells why the objects are not linked.
pub const UNLINKED: u8 = 1;

/// The process of `run` ended by a fault, or with a status other than 0.
pub const FAILED: u8 = 1;

/// The words are no command.
pub const WORDS: u8 = 2;

/// A file could not be read or replaced.
pub const UNREAD: u8 = 3;

/// There was no memory; nothing was written.
pub const NO_MEMORY: u8 = 4;

/// The output failed.
pub const UNWRITTEN: u8 = 5;

/// A file is not of its form, or passes a limit.
pub const UNFIT: u8 = 6;
