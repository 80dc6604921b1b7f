//! The properties of a note.

ghost use Rattle.std.specs.Prelude.{◌≡◌, ◌≤◌, ◌↔◌, [], length, IsTrue, OnOk, OnErr, slice_get};
ghost use Rattle.std.specs.Ordering.{nat_cmp};
ghost use Rattle.std.specs.BTreeMap.{insert_entry};
ghost use Rattle.cet_note.specs.Note.{Note, IsNote, Sets, word_of, is_word_type as is_typed};

use cet_base::NoMemory;
use std::alloc::Global;
use std::collections::BTreeMap;
use std::collections::btree_map::Iter;
use std::marker::Model;

/// The properties of a note, by their type: a word of 32 bits for each. The types lie in the three ranges of
/// `is_word_type` (System V x86-64 psABI, "Program Property").
#[derive(Debug, Drop)]
pub struct Props {
    words: BTreeMap<u32, u32>,
}

impl Model for Props {
    ghost Value = { Note };

    ghost view = { λ props. props.words.entries };

    ghost invariant = { λ props. IsNote props.words.entries };
}

impl Props {
    /// No property. It takes no memory until the first `set`.
    pub fn new(alloc: Global) -> Props
        ensures { result ≡ [] }
    {
        Props {
            words: BTreeMap::new(alloc),
        }
    }

    /// Sets the word of the type `kind`, which lies in one of the three ranges. `NoMemory` leaves the properties as they
    /// were.
    pub fn set(&mut self, kind: u32, bits: u32) -> Result<(), NoMemory>
        requires { IsTrue (is_typed kind) }
        ensures ok { OnOk result (Sets self.old self.new kind bits) }
        ensures placed { OnOk result (self.new ≡ insert_entry nat_cmp self.old kind bits) }
        ensures err { OnErr result (self.new ≡ self.old) }
        ensures note { IsNote self.new }
    {
        self.words.insert(kind, bits)?;
        Ok(())
    }

    /// The type and word of the property numbered `n` from 0, in ascending order of the types. None exactly where there
    /// are at most `n`.
    pub fn pair(&self, n: u32) -> Option<(u32, u32)>
        ensures pair { result ≡ slice_get self.now n }
        ensures note { IsNote self.now }
    {
        self.words
            .iter()
            .nth(n as usize)
            .map(|(kind, bits)| (*kind, *bits))
    }

    /// The word of the type `kind`. None exactly where no property has that type.
    pub fn get(&self, kind: u32) -> Option<u32>
        ensures { result ≡ word_of self.now kind }
    {
        self.words.get(&kind).copied()
    }

    /// How many properties there are: at most 98,302, as many as there are types in the three ranges.
    pub fn len(&self) -> u32
        ensures len { result ≡ length self.now }
        ensures few { result ≤ 98302 }
    {
        self.words.len() as u32
    }

    /// Whether there is no property.
    pub fn is_empty(&self) -> bool
        ensures { IsTrue result ↔ (self.now ≡ []) }
    {
        self.words.is_empty()
    }

    /// The properties, in ascending order of their types.
    pub fn iter(&self) -> Iter<'_, u32, u32>
        ensures all { result ≡ self.now }
        ensures note { IsNote self.now }
    {
        self.words.iter()
    }
}
