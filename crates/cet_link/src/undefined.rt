//! Symbols that are not defined.

ghost use Rattle.std.specs.Prelude.{◌≡◌, ◌<◌, ◌^◌, ℕ, List, length, is_none};
ghost use Rattle.std.specs.Option.{option_map};
ghost use Rattle.cet_link.specs.First.{Finds};
ghost use Rattle.cet_link.specs.Inputs.{Met, met_in, symbols};
ghost use Rattle.cet_link.specs.Names.{is_undefined as is_undefined_in};
ghost use Rattle.cet_link.specs.Faults.{is_unresolved as is_unresolved_in, unresolved_fault, undefined_faults};
ghost use Rattle.cet_link.specs.Known.{met_of, definition_in, AreNames};

use crate::error::LinkError;
use crate::names::{Names, Seen};
use cet_base::Items;
use cet_elf::{Bind, Object, Symbol, SymbolPlace};
use std::alloc::Global;

// SHN_UNDEF.
pub(crate) fn is_undefined(place: SymbolPlace) -> bool
    ensures { result ≡ is_undefined_in place }
{
    match place {
        SymbolPlace::Undefined => true,
        SymbolPlace::Absolute | SymbolPlace::Common | SymbolPlace::In(_) => false,
    }
}

// An undefined symbol has no value.
fn is_unresolved(bind: Bind, definition: Option<Seen<'_>>) -> bool
    ensures { result ≡ is_unresolved_in bind (option_map met_of definition.entry) }
{
    match bind {
        Bind::Local => true,
        Bind::Global => definition.is_none(),
        Bind::Weak => false,
    }
}

// A symbol.
fn check_symbol<'a>(alloc: Global, names: &Names<'a>, met: Seen<'a>) -> Result<(), LinkError>
    ensures { Finds result (unresolved_fault (definition_in names.now met.entry.symbol.now.name) (met_of met.entry)) }
{
    if !is_undefined(met.symbol.place) {
        return Ok(());
    }
    let text = met.symbol.name.as_slice();
    if !is_unresolved(met.symbol.bind, names.definition(text)) {
        return Ok(());
    }
    let name = Items::from_slice(alloc, text)?;
    Err(LinkError::Undefined {
        name,
        input: met.input,
    })
}

// The symbols of an input.
fn check_symbols<'a>(
    alloc: Global,
    names: &Names<'a>,
    input: u32,
    symbols: &'a [Symbol],
) -> Result<(), LinkError>
    ensures { (all : List Met) → AreNames all names.now → Finds result (undefined_faults all (met_in input symbols.now)) }
{
    for symbol in symbols {
        check_symbol(alloc, names, Seen { input, symbol })?;
    }
    Ok(())
}

/// The symbols of all inputs. Undefined comes in the order of inputs and symbols.
pub(crate) fn check_undefined<'a>(
    alloc: Global,
    names: &Names<'a>,
    inputs: &'a [Object],
) -> Result<(), LinkError>
    requires few { length inputs.now < 2 ^ 32 }
    requires names { AreNames (symbols inputs.now) names.now }
    ensures { Finds result (undefined_faults (symbols inputs.now) (symbols inputs.now)) }
{
    for (number, input) in inputs.iter().enumerate() {
        check_symbols(alloc, names, number as u32, input.symbols.as_slice())?;
    }
    Ok(())
}
