//! The symbols of all inputs as they are met: section groups, common symbols and names that are defined twice.

ghost use Rattle.std.specs.Prelude.{◌≡◌, ◌<◌, ◌^◌, ℕ, List, [], ◌∷◌, IfOk, length};
ghost use Rattle.std.specs.List.{list_any};
ghost use Rattle.cet_link.specs.First.{Finds};
ghost use Rattle.cet_link.specs.Inputs.{Met, met_in, symbols_of, symbols};
ghost use Rattle.cet_link.specs.Names.{is_common as is_common_in};
ghost use Rattle.cet_link.specs.Places.{is_class};
ghost use Rattle.cet_elf.specs.declared.object.Class.TheVariants as classes;
ghost use Rattle.cet_link.specs.Faults.{group_faults, common_faults, duplicate_fault, symbol_faults, input_faults};
ghost use Rattle.cet_link.specs.Known.{met_of, definition_in, if_global, AreNames, Scans};

use crate::error::LinkError;
use crate::names::{Names, Seen, is_global_definition};
use cet_base::Items;
use cet_elf::{Class, Object, Section, Symbol, SymbolPlace};
use std::alloc::Global;

// SHT_GROUP.
fn is_group(section: &Section) -> bool
    ensures { result ≡ is_class classes.Group section.now.class }
{
    match section.class {
        Class::Group => true,
        Class::Code | Class::Read | Class::Write | Class::Zero => false,
    }
}

// SHN_COMMON.
fn is_common(place: SymbolPlace) -> bool
    ensures { result ≡ is_common_in place }
{
    match place {
        SymbolPlace::Common => true,
        SymbolPlace::Undefined | SymbolPlace::Absolute | SymbolPlace::In(_) => false,
    }
}

// Some section is a group.
fn has_group(sections: &[Section]) -> bool
    ensures { result ≡ list_any (λ s. is_class classes.Group s.class) sections.now }
{
    sections.iter().any(|s| is_group(s))
}

// The input has no section group.
fn check_groups(number: u32, input: &Object) -> Result<(), LinkError>
    ensures { Finds result (group_faults number input.now) }
{
    if has_group(input.sections.as_slice()) {
        return Err(LinkError::Group { input: number });
    }
    Ok(())
}

// The symbol is not a common one.
fn check_common(alloc: Global, met: Seen<'_>) -> Result<(), LinkError>
    ensures { Finds result (common_faults (met_of met.entry)) }
{
    if is_common(met.symbol.place) {
        let name = Items::from_slice(alloc, met.symbol.name.as_slice())?;
        return Err(LinkError::Common {
            name,
            input: met.input,
        });
    }
    Ok(())
}

// The symbol is no second global definition of its name.
fn check_duplicate<'a>(alloc: Global, names: &Names<'a>, met: Seen<'a>) -> Result<(), LinkError>
    ensures { Finds result (duplicate_fault (if_global (definition_in names.now met.entry.symbol.now.name)) (met_of met.entry)) }
{
    if !is_global_definition(met.symbol) {
        return Ok(());
    }
    let Some(first) = names.global(met.symbol.name.as_slice()) else {
        return Ok(());
    };
    let name = Items::from_slice(alloc, met.symbol.name.as_slice())?;
    Err(LinkError::Duplicate {
        name,
        first: first.input,
        second: met.input,
    })
}

// A symbol behind those that the names have.
fn scan_symbol<'a>(alloc: Global, names: &mut Names<'a>, met: Seen<'a>) -> Result<(), LinkError>
    ensures { Scans names.old names.new result (λ before. symbol_faults before (met_of met.entry ∷ [])) (met_of met.entry ∷ []) }
{
    check_common(alloc, met)?;
    check_duplicate(alloc, names, met)?;
    names.meet(met)?;
    Ok(())
}

// The symbols of an input behind those that the names have.
fn scan_symbols<'a>(
    alloc: Global,
    names: &mut Names<'a>,
    input: u32,
    symbols: &'a [Symbol],
) -> Result<(), LinkError>
    ensures { Scans names.old names.new result (λ before. symbol_faults before (met_in input symbols.now)) (met_in input symbols.now) }
{
    for symbol in symbols {
        scan_symbol(alloc, names, Seen { input, symbol })?;
    }
    Ok(())
}

/// The names of the symbols of all inputs. Group, Common and Duplicate come in the order of inputs and symbols.
pub(crate) fn scan<'a>(alloc: Global, inputs: &'a [Object]) -> Result<Names<'a>, LinkError>
    requires { length inputs.now < 2 ^ 32 }
    ensures names { IfOk result (AreNames (symbols inputs.now)) }
    ensures fault { Finds result (input_faults [] 0 inputs.now) }
{
    let mut names = Names::new(alloc);
    for (number, input) in inputs.iter().enumerate() {
        check_groups(number as u32, input)?;
        scan_symbols(alloc, &mut names, number as u32, input.symbols.as_slice())?;
    }
    Ok(names)
}
