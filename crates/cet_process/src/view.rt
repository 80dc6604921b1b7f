/// What of a process those see who choose its events.
#[derive(Clone, Copy, Debug, PartialEq, Eq)]
pub struct View {
    /// How many threads were ever made: their numbers are below.
    pub threads: u32,
    /// Bit n is 1 where thread n lives.
    pub live: u64,
    /// An address where a new region may be mapped.
    pub fresh: u64,
}
