//! Memory for the names and bytes of an object.

ghost use Rattle.std.specs.Prelude.{◌≡◌, IfOk};

use cet_base::{Bytes, NoMemory};
use std::alloc::Global;

/// How many bytes the names and bytes of an object take at most: 1 GiB.
pub const MOST: usize = 1 << 30;

/// An allocator for copies of parts of a file, which together take no more than is left. A small file can name one part
/// many times.
#[derive(Drop)]
pub struct Room {
    alloc: Global,
    left: usize,
}

impl Room {
    pub fn new(alloc: Global) -> Self {
        Room { alloc, left: MOST }
    }

    /// The allocator.
    pub fn alloc(&self) -> Global {
        self.alloc
    }

    /// A copy of the part. It is refused before memory is taken where the copies would pass the limit.
    pub fn copy(&mut self, part: &[u8]) -> Result<Bytes, NoMemory>
        ensures { IfOk result (λ copy. copy ≡ part.now) }
    {
        if part.len() > self.left {
            return Err(NoMemory);
        }
        self.left -= part.len();
        Bytes::from_slice(self.alloc, part)
    }
}
