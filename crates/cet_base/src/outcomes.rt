//! The two answers that carry nothing: want of memory, and the failure of a file or an output.
use std::alloc::{AllocError, AllocFailed};

/// There was no memory for the call.
#[derive(Debug, Clone, Copy, PartialEq, Eq)]
pub struct NoMemory;

impl From<AllocError> for NoMemory {
    fn from(_refused: AllocError) -> NoMemory {
        NoMemory
    }
}

/// The value that was not stored is dropped.
impl<T: Drop> From<AllocFailed<T>> for NoMemory {
    fn from(_refused: AllocFailed<T>) -> NoMemory {
        NoMemory
    }
}

/// A file or an output failed.
#[derive(Debug, Clone, Copy, PartialEq, Eq)]
pub struct Failed;
