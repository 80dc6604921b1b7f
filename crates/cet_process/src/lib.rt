//! A process and its kernel, by definitions alone: how an image is loaded, what each system call and each signal does, and the runs that
//! a list of events makes. `specs/` defines them (`start`, `after`, `state`, `CpFree`, `chosen`); the types of values that they speak of stand
//! here. Bodies that compute them stand in the crates above.
#![tactic(auto)]

mod event;
pub mod law;
mod load_error;
mod outcome;
mod view;

pub use event::Event;
pub use load_error::LoadError;
pub use outcome::Outcome;
pub use view::View;
