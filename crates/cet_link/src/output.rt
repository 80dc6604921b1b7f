//! The symbols of the executable.

ghost use Rattle.std.specs.Prelude.{◌≡◌, ◌<◌, ◌^◌, ◌+◌, ◌++◌, [], ◌∷◌, ℕ, List, IfOk, OnOk, length, map, min, not};
ghost use Rattle.std.specs.List.{sum_by};
ghost use Rattle.cet_link.specs.declared.error.LinkError.TheVariants as errors;
ghost use Rattle.cet_link.specs.First.{Finds, where_true};
ghost use Rattle.cet_link.specs.Inputs.{Met, met_in, symbols as symbols_of};
ghost use Rattle.cet_link.specs.Linked.{is_section as is_section_in, is_kept as is_kept_in, locals, kept_symbols as kept_symbols_of};
ghost use Rattle.cet_link.specs.Faults.{names_fit};
ghost use Rattle.cet_link.specs.Known.{met_of, AreNames, Keeps};

use crate::error::LinkError;
use crate::names::{Names, Seen, is_local};
use crate::undefined::is_undefined;
use cet_base::NoMemory;
use cet_elf::{Object, Symbol, SymbolKind};
use std::alloc::Global;

/// The names of the symbols of an executable have fewer bytes together.
const NAME_LIMIT: usize = 0x8000_0000;

// STT_SECTION.
fn is_section(kind: SymbolKind) -> bool
    ensures { result ≡ is_section_in kind }
{
    match kind {
        SymbolKind::Section => true,
        SymbolKind::None | SymbolKind::Func | SymbolKind::Object => false,
    }
}

// The executable has the symbol.
fn is_kept(symbol: &Symbol) -> bool
    ensures { result ≡ is_kept_in symbol.now }
{
    !is_section(symbol.kind) && !is_undefined(symbol.place) && !symbol.name.is_empty()
}

// Adds a symbol, unless it is left out.
fn keep<'a>(kept: &mut Vec<Seen<'a>>, met: Seen<'a>) -> Result<(), NoMemory>
    ensures { OnOk result (Keeps kept.old.items kept.new.items (met_of met.entry ∷ [])) }
{
    if is_kept(met.symbol) {
        kept.push(met)?;
    }
    Ok(())
}

// Adds a local symbol.
fn keep_local<'a>(kept: &mut Vec<Seen<'a>>, met: Seen<'a>) -> Result<(), NoMemory>
    ensures { OnOk result (Keeps kept.old.items kept.new.items (locals (met_of met.entry ∷ []))) }
{
    if is_local(met.symbol.bind) {
        keep(kept, met)?;
    }
    Ok(())
}

// Adds the local symbols of an input.
fn keep_locals<'a>(
    kept: &mut Vec<Seen<'a>>,
    input: u32,
    symbols: &'a [Symbol],
) -> Result<(), NoMemory>
    ensures { OnOk result (Keeps kept.old.items kept.new.items (locals (met_in input symbols.now))) }
{
    for symbol in symbols {
        keep_local(kept, Seen { input, symbol })?;
    }
    Ok(())
}

// The local symbols of all inputs.
fn local_symbols<'a>(alloc: Global, inputs: &'a [Object]) -> Result<Vec<Seen<'a>>, NoMemory>
    requires { length inputs.now < 2 ^ 32 }
    ensures { IfOk result (λ kept. Keeps [] kept.items (locals (symbols_of inputs.now))) }
{
    let mut kept = Vec::new(alloc);
    for (number, input) in inputs.iter().enumerate() {
        keep_locals(&mut kept, number as u32, input.symbols.as_slice())?;
    }
    Ok(kept)
}

// Adds definitions.
fn keep_all<'a>(kept: &mut Vec<Seen<'a>>, definitions: &[Seen<'a>]) -> Result<(), NoMemory>
    ensures { OnOk result (Keeps kept.old.items kept.new.items (map met_of definitions.now)) }
{
    for definition in definitions {
        keep(kept, *definition)?;
    }
    Ok(())
}

/// The symbols of the executable: the local ones by input and index, then the definition that counts for each name.
pub(crate) fn kept_symbols<'a>(
    alloc: Global,
    names: &Names<'a>,
    inputs: &'a [Object],
) -> Result<Vec<Seen<'a>>, NoMemory>
    requires few { length inputs.now < 2 ^ 32 }
    requires names { AreNames (symbols_of inputs.now) names.now }
    ensures { IfOk result (λ kept. map met_of kept.items ≡ kept_symbols_of (symbols_of inputs.now)) }
{
    let mut kept = local_symbols(alloc, inputs)?;
    let definitions = names.definitions(alloc)?;
    keep_all(&mut kept, &definitions)?;
    Ok(kept)
}

// So many bytes and those of a name, where they keep the limit, and else the limit.
fn more_bytes(total: usize, symbol: &Symbol) -> usize
    ensures { result ≡ min (total + length symbol.now.name) (2 ^ 31) }
{
    total.saturating_add(symbol.name.len()).min(NAME_LIMIT)
}

// The bytes of the names of symbols, where they keep the limit, and else the limit.
fn name_bytes(symbols: &[Seen<'_>]) -> usize
    ensures { result ≡ min (sum_by (λ m. length m.symbol.name) (map met_of symbols.now)) (2 ^ 31) }
{
    let mut total = 0;
    for met in symbols {
        total = more_bytes(total, met.symbol);
    }
    total
}

/// The names of the symbols of the executable are together below 2^31 bytes, else TooLarge.
pub(crate) fn check_names(kept: &[Seen<'_>]) -> Result<(), LinkError>
    ensures { (all : List Met) → map met_of kept.now ≡ kept_symbols_of all → Finds result (where_true (not (names_fit all)) errors.TooLarge) }
{
    if name_bytes(kept) < NAME_LIMIT {
        Ok(())
    } else {
        Err(LinkError::TooLarge)
    }
}
