//! The machine that a thread runs on, by definitions alone: memory as a list of regions, arithmetic, shadow words, what
//! each instruction does, one step, and the frames of signals. `specs/` defines them; the types of values that they speak of
//! stand here. Bodies that compute them stand in `cet_mem`, `cet_alu` and the crates above.
#![tactic(auto)]

mod action;
pub mod machine_law;
mod memory;
pub mod memory_law;
mod shadow_fault;

pub use action::Action;
pub use memory::{Kind, Region};
pub use shadow_fault::ShadowFault;
