//! One step of the machine, computed: the result and the new state are those of the definition `step` of `cet_machine` (`specs/Step.antt`).
//! Each family of instructions stands in a file of its own, as its definition does. A fault is answered before anything is written.
#![tactic(auto)]

mod arithmetic;
mod control;
mod execute;
mod moves;
mod one_step;
mod operand;
mod shadow;
mod stack;
mod system;
#[cfg(test)]
mod tests;

pub use one_step::{StepEnd, step};
pub use operand::{value, with_value};
pub use shadow::shadow_pushed;
pub use system::flags_word;
