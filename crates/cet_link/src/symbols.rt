//! The symbols of the executable as values (gABI, "Symbol Table").

ghost use Rattle.std.specs.Prelude.{◌≡◌, ℕ, List, IfOk, map};
ghost use Rattle.cet_elf.specs.declared.object.Object.{Object as ObjectOf};
ghost use Rattle.cet_link.specs.Known.{met_of};
ghost use Rattle.cet_link.specs.Laid.{ArePlaces};
ghost use Rattle.cet_link.specs.Linked.{exec_symbol as exec_symbol_of};

use crate::names::Seen;
use crate::values::own_value;
use cet_base::{Items, NoMemory};
use cet_elf::room::Room;
use cet_elf::{ExecSymbol, ExecSymbolList};
use std::alloc::Global;

// A symbol that is defined, with its value.
fn exec_symbol(room: &mut Room, places: &[Vec<u64>], met: Seen<'_>) -> Result<ExecSymbol, NoMemory>
    ensures { IfOk result (λ symbol. (inputs : List ObjectOf) → (note : List ℕ) → ArePlaces inputs note places.now → symbol ≡ exec_symbol_of inputs note (met_of met.entry)) }
{
    let symbol = met.symbol;
    Ok(ExecSymbol {
        name: room.copy(symbol.name.as_slice())?,
        kind: symbol.kind,
        bind: symbol.bind,
        value: own_value(places, met),
        size: symbol.size,
    })
}

/// The symbols that the executable keeps, with their values. Names past 1 GiB together are want of memory.
pub(crate) fn exec_symbols(
    alloc: Global,
    places: &[Vec<u64>],
    kept: &[Seen<'_>],
) -> Result<ExecSymbolList, NoMemory>
    ensures { IfOk result (λ list. (inputs : List ObjectOf) → (note : List ℕ) → ArePlaces inputs note places.now → list ≡ map (exec_symbol_of inputs note) (map met_of kept.now)) }
{
    let mut room = Room::new(alloc);
    let mut symbols = Items::new(alloc);
    for met in kept {
        symbols.push(exec_symbol(&mut room, places, *met)?)?;
    }
    Ok(symbols)
}
