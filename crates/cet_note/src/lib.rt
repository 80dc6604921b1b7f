//! Property notes of x86-64 ELF files: reading, writing and merging them, and the CET features that they claim.
//! Notes are the lists of `specs/Note`, and their bytes those of `specs/Form`; what is refused has the first fault of
//! `specs/FirstFault`, and a merge gives the note of `specs/Merged`.
#![tactic(auto)]

mod claims;
mod fault;
mod feature_set;
mod laws;
mod merging;
mod props;
mod ranges;
mod reading;
mod writing;

pub use claims::{FEATURE_1_AND, features};
pub use fault::NoteError;
pub use feature_set::Features;
pub use laws::{one_merge, one_note, written_reads_back};
pub use merging::merge;
pub use props::Props;
pub use ranges::is_word_type;
pub use reading::read_note;
pub use writing::write_note;

#[cfg(test)]
mod tests;
