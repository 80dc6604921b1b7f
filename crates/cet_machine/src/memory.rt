use cet_base::Bytes;

/// What a region may be used for.
#[derive(Clone, Copy, Debug, PartialEq, Eq)]
pub enum Kind {
    /// Instructions are fetched from it, and data is loaded from it.
    Code,
    /// Data is loaded from it.
    Read,
    /// Data is loaded from it and stored to it.
    Write,
    /// A shadow stack: words are pushed and popped by the instructions that know it, and data is loaded from it.
    Shadow,
}

/// A range of addresses with one byte each.
#[derive(Drop)]
pub struct Region {
    /// The first address.
    pub start: u64,
    pub kind: Kind,
    pub bytes: Bytes,
}
