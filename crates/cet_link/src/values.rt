//! The values of symbols (gABI, "Symbol Values").

ghost use Rattle.std.specs.Prelude.{◌≡◌, ◌<◌, ◌^◌, ℕ, List, IfOk, length, map};
ghost use Rattle.cet_elf.specs.declared.object.Object.{Object as ObjectOf};
ghost use Rattle.cet_link.specs.Inputs.{met_in, symbols};
ghost use Rattle.cet_link.specs.Known.{met_of};
ghost use Rattle.cet_link.specs.Values.{own_value as own_value_of, value_of_name as value_of_name_in, value_of};
ghost use Rattle.cet_link.specs.Laid.{cell as cell_of, ArePlaces, AreValues, AreKnown};

use crate::names::{Names, Seen, is_local};
use cet_base::NoMemory;
use cet_elf::{Object, Symbol, SymbolPlace};
use std::alloc::Global;

/// The places of the sections and the values of the symbols of each input, by their numbers.
#[derive(Drop)]
pub(crate) struct Tables {
    pub(crate) places: Vec<Vec<u64>>,
    pub(crate) values: Vec<Vec<u64>>,
}

/// The number in a row and column of a table, or 0 where there is none.
pub(crate) fn cell(rows: &[Vec<u64>], row: u32, column: u32) -> u64
    ensures { result ≡ cell_of rows.now row column }
{
    match rows.get(row as usize) {
        Some(row) => row.get(column as usize).copied().unwrap_or(0),
        None => 0,
    }
}

/// The value of a symbol that is defined.
pub(crate) fn own_value(places: &[Vec<u64>], met: Seen<'_>) -> u64
    ensures { (inputs : List ObjectOf) → (note : List ℕ) → ArePlaces inputs note places.now → result ≡ own_value_of inputs note (met_of met.entry) }
{
    let value = met.symbol.value;
    match met.symbol.place {
        SymbolPlace::In(number) => cell(places, met.input, number).wrapping_add(value),
        SymbolPlace::Undefined | SymbolPlace::Absolute | SymbolPlace::Common => value,
    }
}

/// The value of the definition that counts for a name, or 0 where there is none.
pub(crate) fn value_of_name<'a>(places: &[Vec<u64>], names: &Names<'a>, name: &[u8]) -> u64
    ensures { (inputs : List ObjectOf) → (note : List ℕ) → AreKnown inputs note places.now names.now → result ≡ value_of_name_in inputs note name.now }
{
    match names.definition(name) {
        Some(definition) => own_value(places, definition),
        None => 0,
    }
}

// The value of a symbol.
fn value<'a>(places: &[Vec<u64>], names: &Names<'a>, met: Seen<'a>) -> u64
    ensures { (inputs : List ObjectOf) → (note : List ℕ) → AreKnown inputs note places.now names.now → result ≡ value_of inputs note (met_of met.entry) }
{
    if is_local(met.symbol.bind) {
        own_value(places, met)
    } else {
        value_of_name(places, names, met.symbol.name.as_slice())
    }
}

// The values of the symbols of an input.
fn values_of<'a>(
    alloc: Global,
    places: &[Vec<u64>],
    names: &Names<'a>,
    input: u32,
    symbols: &'a [Symbol],
) -> Result<Vec<u64>, NoMemory>
    ensures { IfOk result (λ row. (inputs : List ObjectOf) → (note : List ℕ) → AreKnown inputs note places.now names.now → row.items ≡ map (λ m. value_of inputs note m) (met_in input symbols.now)) }
{
    let mut row = Vec::new(alloc);
    for symbol in symbols {
        row.push(value(places, names, Seen { input, symbol }))?;
    }
    Ok(row)
}

/// The values of the symbols of each input.
pub(crate) fn values<'a>(
    alloc: Global,
    inputs: &'a [Object],
    places: &[Vec<u64>],
    names: &Names<'a>,
) -> Result<Vec<Vec<u64>>, NoMemory>
    requires { length inputs.now < 2 ^ 32 }
    ensures { IfOk result (λ rows. (note : List ℕ) → AreKnown inputs.now note places.now names.now → AreValues inputs.now note rows.items) }
{
    let mut rows = Vec::new(alloc);
    for (number, input) in inputs.iter().enumerate() {
        let row = values_of(
            alloc,
            places,
            names,
            number as u32,
            input.symbols.as_slice(),
        )?;
        rows.push(row)?;
    }
    Ok(rows)
}
