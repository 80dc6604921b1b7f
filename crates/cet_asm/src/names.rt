//! The names of a text, and where they are defined.
ghost use Rattle.std.specs.Prelude.{◌≡◌, ℕ, List, [], ◌∷◌, None, Some, OnOk};
ghost use Rattle.cet_asm.specs.Names.{known_at, place_at, count_of};
ghost use Rattle.cet_asm.specs.Placing.{DefinesMark, MeetsNames};

use cet_base::NoMemory;
use cet_syntax::SectionName;
use std::alloc::Global;
use std::collections::HashMap;

/// Where a name is defined.
#[derive(Clone, Copy, Debug, PartialEq, Eq)]
pub(crate) struct Target {
    pub(crate) section: SectionName,
    /// Its offset in the section.
    pub(crate) value: u64,
    /// Whether it is a `NAME:`.
    pub(crate) is_label: bool,
}

/// The names that were met, and where they are defined.
#[derive(Drop)]
pub(crate) struct Names<'a> {
    known: HashMap<&'a [u8], Option<Target>>,
}

impl<'a> Names<'a> {
    /// No name. It takes no memory.
    pub(crate) fn new(alloc: Global) -> Names<'a>
        ensures none { (name : List ℕ) → known_at result name ≡ None }
        ensures count { count_of result ≡ 0 }
    {
        Names {
            known: HashMap::new(alloc),
        }
    }

    /// How many names were met.
    pub(crate) fn count(&self) -> usize
        ensures { result ≡ count_of self.now }
    {
        self.known.len()
    }

    /// Where the name is defined.
    pub(crate) fn place(&self, name: &'a [u8]) -> Option<Target>
        ensures { result ≡ place_at self.now name.now }
    {
        match self.known.get(&name) {
            Some(place) => *place,
            None => None,
        }
    }

    /// Defines a name.
    pub(crate) fn define(&mut self, name: &'a [u8], target: Target) -> Result<(), NoMemory>
        ensures { OnOk result (DefinesMark self.old self.new (Some (name.now, target))) }
    {
        self.known.insert(name, Some(target))?;
        Ok(())
    }

    /// Meets a name, which may have been met before.
    pub(crate) fn meet(&mut self, name: &'a [u8]) -> Result<(), NoMemory>
        ensures { OnOk result (MeetsNames self.old self.new (name.now ∷ [])) }
    {
        if self.known.contains_key(&name) {
            return Ok(());
        }
        self.known.insert(name, None)?;
        Ok(())
    }
}
