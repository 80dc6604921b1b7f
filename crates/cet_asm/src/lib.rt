//! Assembly text to relocatable objects.
//! It meets `assembly` of `specs/Assembled`: the object of a text, or the first thing wrong with it and its line.
//! What a statement puts into its section is `specs/Emitted`, what a site's word means `specs/Sequence`.
#![tactic(auto)]

mod assembling;
mod assembly;
mod bounds;
mod bytes;
mod counts;
mod cursor;
mod definition;
mod error;
mod extent;
mod kept;
mod late;
mod names;
mod names_used;
mod object;
mod part;
mod parts;
mod placed;
mod regular;
mod section;
mod sequence;
mod site;
mod sizes;
mod statement;
mod symbols;
mod table;
mod targets;
#[cfg(test)]
mod tests;
mod usage;
mod uses;

pub use assembling::assemble;
pub use definition::Definition;
pub use error::{AsmError, AsmKind};
pub use part::{Mark, Part};
pub use placed::{Around, Placed, Spot, Step};
pub use usage::Use;
