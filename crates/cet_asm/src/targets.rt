//! Where names are defined.
ghost use Rattle.std.specs.Prelude.{◌≡◌, ℕ, List, None, Some, ◌&&◌, IfOk, OnOk, if◌then◌else◌};
ghost use Rattle.std.specs.Option.{option_or};
ghost use Rattle.std.specs.Str.{bytes_eq};
ghost use Rattle.cet_syntax.specs.declared.statement.SectionName.{SectionName as SectionOf};
ghost use Rattle.cet_asm.specs.Assembled.{same_section, targets_in};
ghost use Rattle.cet_asm.specs.Tables.{table_at, targets_at};

use crate::definition::Definition;
use crate::table::Table;
use cet_base::NoMemory;
use cet_syntax::SectionName;
use std::alloc::Global;

/// The value of each name in the section that it is defined in.
#[derive(Drop)]
pub(crate) struct Targets<'a> {
    text: Table<'a>,
    rodata: Table<'a>,
    data: Table<'a>,
    bss: Table<'a>,
}

impl<'a> Targets<'a> {
    /// No name is defined.
    pub(crate) fn new(alloc: Global) -> Targets<'a>
        ensures { (section : SectionOf) (name : List ℕ) → targets_at result section name ≡ None }
    {
        Targets {
            text: Table::new(alloc),
            rodata: Table::new(alloc),
            data: Table::new(alloc),
            bss: Table::new(alloc),
        }
    }

    /// Where names are defined first.
    pub(crate) fn of(alloc: Global, defined: &[Definition<'a>]) -> Result<Targets<'a>, NoMemory>
        ensures { IfOk result (λ targets. targets_at targets ≡ targets_in defined.now) }
    {
        let mut targets = Targets::new(alloc);
        for d in defined {
            targets.define(d.section, d.name.as_bytes(), d.value)?;
        }
        Ok(targets)
    }

    fn table(&self, section: SectionName) -> &Table<'a>
        ensures { result.now ≡ table_at self.now section }
    {
        match section {
            SectionName::Text => &self.text,
            SectionName::Rodata => &self.rodata,
            SectionName::Data => &self.data,
            SectionName::Bss => &self.bss,
        }
    }

    /// The value of a name in a section.
    pub(crate) fn get(&self, section: SectionName, name: &[u8]) -> Option<u64>
        ensures { result ≡ targets_at self.now section name.now }
    {
        self.table(section).get(name)
    }

    /// A name is defined in a section; where it was before, that stands.
    pub(crate) fn define(
        &mut self,
        section: SectionName,
        name: &'a [u8],
        value: u64,
    ) -> Result<(), NoMemory>
        ensures { OnOk result ((place : SectionOf) (other : List ℕ) → targets_at self.new place other ≡ option_or (targets_at self.old place other) (if same_section section place && bytes_eq name.now other then Some value else None)) }
    {
        match section {
            SectionName::Text => self.text.give(name, value),
            SectionName::Rodata => self.rodata.give(name, value),
            SectionName::Data => self.data.give(name, value),
            SectionName::Bss => self.bss.give(name, value),
        }
    }
}
