//! The signals of one thread: the frame that goes on its stacks, and the return from the handler. `deliver` and `sigreturn` are the definitions of
//! these names in `cet_machine` (`specs/Signal.antt`). They work on memory, registers and mode alone. A fault leaves memory and
//! registers as they were.
//! `law` is about those definitions: what was delivered is returned, where the frame and the marked SSP were kept.
#![tactic(auto)]

mod delivery;
mod frame;
pub mod law;
mod returning;
#[cfg(test)]
mod tests;

pub use cet_machine::Action;
pub use delivery::deliver;
pub use frame::word_of;
pub use returning::sigreturn;
