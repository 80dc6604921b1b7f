//! The operations on shadow stack words: push, pop, and the token instructions of CET (SDM volume 1, "Shadow Stacks").
//! Each call gives what the definition of its name in `cet_machine` (`specs/Shadow.antt`) gives. A refusal leaves memory and SSP as they
//! were. SSP is a multiple of 8 before and after each.
#![tactic(auto)]

mod stack;
#[cfg(test)]
mod tests;
mod token;
mod word;

pub use cet_machine::ShadowFault;
pub use stack::{incssp, pop, push};
pub use token::{rstorssp, saveprevssp, set_token};
