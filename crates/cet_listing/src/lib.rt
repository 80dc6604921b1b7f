//! The listing of code: a line `0xADDR HEX TEXT` for each instruction.
//! `check_listing` tells whether bytes have a listing and else where and why it stops, and `write_listing` writes it, by the
//! definitions `IsListing` and `StopsAt` of `specs/`. The laws of `law` say that a listing is the only one, and that where it
//! stops there is none.
#![tactic(auto)]

mod check;
pub mod law;
mod line;
mod page;
#[cfg(test)]
mod tests;
mod write;

pub use cet_isa::DecodeError;
pub use check::{ListingError, check_listing};
pub use page::Page;
pub use write::write_listing;
