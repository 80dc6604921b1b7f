//! Relocations whose sums do not fit their fields (psABI, "Relocation Types").

ghost use Rattle.std.specs.Prelude.{◌≡◌, ◌<◌, ◌≤◌, ◌^◌, ℕ, List, All, length};
ghost use Rattle.std.specs.List.{flat_map};
ghost use Rattle.cet_elf.specs.Consistent.{IsConsistent};
ghost use Rattle.cet_elf.specs.declared.object.Object.{Object as ObjectOf};
ghost use Rattle.cet_elf.specs.declared.object.Section.{Section as SectionOf};
ghost use Rattle.cet_link.specs.First.{Finds};
ghost use Rattle.cet_link.specs.Inputs.{parts_in, parts};
ghost use Rattle.cet_link.specs.Faults.{overflow_fault, overflow_faults};
ghost use Rattle.cet_link.specs.Laid.{AreTables};

use crate::error::LinkError;
use crate::patch::{relocated, sum_fits};
use crate::values::Tables;
use cet_elf::{Object, Rela, Section};

// A relocation of the section of this number.
fn check_relocation(tables: &Tables, input: u32, number: u32, rela: &Rela) -> Result<(), LinkError>
    ensures { (inputs : List ObjectOf) → (note : List ℕ) → AreTables inputs note tables.now → (section : SectionOf) → Finds result (overflow_fault inputs note (record { input = input; number = number; section = section }) rela.now) }
{
    if sum_fits(rela.kind, relocated(tables, input, number, rela)) {
        Ok(())
    } else {
        Err(LinkError::Overflow {
            input,
            section: number,
            offset: rela.offset,
        })
    }
}

// The relocations of the section of this number.
fn check_section(
    tables: &Tables,
    input: u32,
    number: u32,
    relocations: &[Rela],
) -> Result<(), LinkError>
    ensures { (inputs : List ObjectOf) → (note : List ℕ) → AreTables inputs note tables.now → (section : SectionOf) → Finds result (flat_map (overflow_fault inputs note (record { input = input; number = number; section = section })) relocations.now) }
{
    for rela in relocations {
        check_relocation(tables, input, number, rela)?;
    }
    Ok(())
}

// The sections of an input.
fn check_sections(tables: &Tables, input: u32, sections: &[Section]) -> Result<(), LinkError>
    requires { length sections.now ≤ 4096 }
    ensures { (inputs : List ObjectOf) → (note : List ℕ) → AreTables inputs note tables.now → Finds result (overflow_faults inputs note (parts_in input sections.now)) }
{
    for (number, section) in sections.iter().enumerate() {
        check_section(tables, input, number as u32, section.relocations.as_slice())?;
    }
    Ok(())
}

/// The relocations of all inputs. Overflow comes in the order of inputs, sections and relocations.
pub(crate) fn check_overflow(tables: &Tables, inputs: &[Object]) -> Result<(), LinkError>
    requires few { length inputs.now < 2 ^ 32 }
    requires consistent { All IsConsistent inputs.now }
    ensures { (note : List ℕ) → AreTables inputs.now note tables.now → Finds result (overflow_faults inputs.now note (parts inputs.now)) }
{
    for (number, input) in inputs.iter().enumerate() {
        check_sections(tables, number as u32, input.sections.as_slice())?;
    }
    Ok(())
}
