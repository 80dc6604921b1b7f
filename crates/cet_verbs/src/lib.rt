//! What each verb of the program does, over any files and outputs: a function and a module for each. `Command` and `Steps` of `specs/` say what a
//! command reads, looks at and replaces, in which order, and `Answer` what it reports and leaves. Where it cannot, it gives a `Refusal`, whose
//! cause `Refused` and `Unfit` define, and `Refusal::tell` tells it.
#![tactic(auto)]

pub mod asm;
pub mod check_raw;
pub mod dis;
mod forms;
pub mod link;
pub mod notes;
mod notes_text;
mod reading;
mod refusal;
pub mod run;
pub mod status;

pub use refusal::{Refusal, Unfit, say};
