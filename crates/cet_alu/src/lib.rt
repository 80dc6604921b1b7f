//! The arithmetic of operands of 8, 32 and 64 bits on machine words, with the status flags.
//! Each call gives what the definition of its name in `cet_machine` gives: `alu`, `unary` and `holds` of `specs/Arithmetic.antt`, `shift` of
//! `specs/Shifts.antt`, `imul`, `mul` and `div` of `specs/Products.antt`.
#![tactic(auto)]

mod arithmetic;
mod conditions;
mod products;
mod quotients;
mod shifts;
#[cfg(test)]
mod tests;
mod word;

pub use arithmetic::{alu, unary};
pub use conditions::holds;
pub use products::{imul, mul};
pub use quotients::div;
pub use shifts::shift;
