//! Linking: objects to one static executable (System V gABI and psABI). It meets the definitions of `specs/Links`: which executable, by
//! places, values and relocations, and the faults in order.
#![tactic(auto)]

mod check;
mod entry;
mod error;
pub mod law;
mod layout;
#[cfg(test)]
mod link_tests;
mod linking;
mod names;
mod notes;
mod output;
mod overflow;
mod patch;
#[cfg(test)]
mod refusal_tests;
#[cfg(test)]
mod samples;
mod scan;
mod segments;
mod symbols;
mod undefined;
mod values;

pub use error::LinkError;
pub use linking::link;
