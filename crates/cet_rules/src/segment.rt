use cet_base::{Bytes, Items};

/// A range of addresses that a program is loaded to: `bytes`, then zeros up to `size` (gABI, "Program Header").
#[derive(Drop)]
pub struct Segment {
    /// The first address.
    pub start: u64,
    /// The number of addresses.
    pub size: u64,
    pub readable: bool,
    pub writable: bool,
    pub executable: bool,
    pub bytes: Bytes,
}

pub type SegmentList = Items<Segment>;
