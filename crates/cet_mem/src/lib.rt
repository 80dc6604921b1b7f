//! The memory of a process: regions that do not meet, in order of address, and the loads, stores and fetches on them.
//! It meets the definitions of memory in `cet_machine`: `load`, `store`, `fetched`, `held`, `fill`, `place` and `legal` over a list of
//! regions. Each access finds its region by binary search and copies nothing but its own bytes.
#![tactic(auto)]

mod block;
mod blocks;
mod memory;
#[cfg(test)]
mod tests;

pub use cet_machine::Kind;
pub use memory::{MapError, Memory, Pf, REGION_LIMIT};
