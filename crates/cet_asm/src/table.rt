//! Names with a number each.
ghost use Rattle.std.specs.Prelude.{◌≡◌, ℕ, List, Some, None, OnOk, if◌then◌else◌};
ghost use Rattle.std.specs.Option.{option_or};
ghost use Rattle.std.specs.Str.{bytes_eq};
ghost use Rattle.cet_asm.specs.Tables.{number_at};

use cet_base::NoMemory;
use std::alloc::Global;
use std::collections::HashMap;

/// Names with a number each, the one that was first given.
#[derive(Drop)]
pub(crate) struct Table<'a> {
    numbers: HashMap<&'a [u8], u64>,
}

impl<'a> Table<'a> {
    /// No name.
    pub(crate) fn new(alloc: Global) -> Table<'a>
        ensures { (name : List ℕ) → number_at result name ≡ None }
    {
        Table {
            numbers: HashMap::new(alloc),
        }
    }

    /// Gives a name that has none a number.
    pub(crate) fn give(&mut self, name: &'a [u8], number: u64) -> Result<(), NoMemory>
        ensures { OnOk result ((other : List ℕ) → number_at self.new other ≡ option_or (number_at self.old other) (if bytes_eq name.now other then Some number else None)) }
    {
        if self.numbers.get(name).is_none() {
            self.numbers.insert(name, number)?;
        }
        Ok(())
    }

    /// The number of a name.
    pub(crate) fn get(&self, name: &[u8]) -> Option<u64>
        ensures { result ≡ number_at self.now name.now }
    {
        self.numbers.get(name).copied()
    }
}
