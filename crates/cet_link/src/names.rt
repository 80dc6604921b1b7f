//! The names of symbols, and which definition counts for each (gABI, "Symbol Table", symbol bindings).

ghost use Rattle.std.specs.Prelude.{◌≡◌, OnOk, IfOk, Some, [], ◌∷◌, ◌++◌, map};
ghost use Rattle.cet_elf.specs.declared.object.Bind.TheVariants as binds;
ghost use Rattle.std.specs.List.{cons_option, filter_map};
ghost use Rattle.std.specs.Option.{option_map};
ghost use Rattle.cet_link.specs.Names.{is_local as is_local_in, is_global as is_global_in, is_defined as is_defined_in, is_global_definition as is_global_definition_in};
ghost use Rattle.cet_link.specs.Known.{met_of, definition_in, names_in, AreNames, counting as counting_of, counting_by, if_global, Meets};

use cet_base::NoMemory;
use cet_elf::{Bind, Symbol, SymbolPlace};
use indexmap::IndexMap;
use std::alloc::Global;

/// A symbol, and the number of its input.
#[derive(Clone, Copy)]
pub(crate) struct Seen<'a> {
    pub(crate) input: u32,
    pub(crate) symbol: &'a Symbol,
}

// STB_LOCAL.
pub(crate) fn is_local(bind: Bind) -> bool
    ensures { result ≡ is_local_in bind }
{
    match bind {
        Bind::Local => true,
        Bind::Global | Bind::Weak => false,
    }
}

// The symbol has a value of its own.
pub(crate) fn is_defined(place: SymbolPlace) -> bool
    ensures { result ≡ is_defined_in place }
{
    match place {
        SymbolPlace::Undefined | SymbolPlace::Common => false,
        SymbolPlace::Absolute | SymbolPlace::In(_) => true,
    }
}

// STB_GLOBAL.
fn is_global(bind: Bind) -> bool
    ensures { result ≡ is_global_in bind }
{
    match bind {
        Bind::Global => true,
        Bind::Local | Bind::Weak => false,
    }
}

// The symbol defines its name as a global one.
pub(crate) fn is_global_definition(symbol: &Symbol) -> bool
    ensures { result ≡ is_global_definition_in symbol.now }
{
    is_global(symbol.bind) && is_defined(symbol.place)
}

// Adds a symbol, where there is one.
fn push_some<'a>(symbols: &mut Vec<Seen<'a>>, symbol: Option<Seen<'a>>) -> Result<(), NoMemory>
    ensures { OnOk result (map met_of symbols.new.items ≡ map met_of symbols.old.items ++ cons_option (option_map met_of symbol.entry) []) }
{
    if let Some(symbol) = symbol {
        symbols.push(symbol)?;
    }
    Ok(())
}

// The definition that counts of two, the later one being global.
fn earlier<'a>(known: Option<Seen<'a>>, met: Seen<'a>) -> Seen<'a>
    ensures { Some (met_of result) ≡ counting_by binds.Global (option_map met_of known.entry) (met_of met.entry) }
{
    match known {
        Some(first) if is_global(first.symbol.bind) => first,
        _ => met,
    }
}

// The definition that counts behind one known, once this symbol of the same name is met.
fn counting<'a>(known: Option<Seen<'a>>, met: Seen<'a>) -> Option<Seen<'a>>
    ensures { option_map met_of result ≡ counting_of (option_map met_of known.entry) (met_of met.entry) }
{
    if !is_defined(met.symbol.place) {
        return known;
    }
    match met.symbol.bind {
        Bind::Global => Some(earlier(known, met)),
        Bind::Weak => Some(known.unwrap_or(met)),
        Bind::Local => known,
    }
}

/// The names of the symbols that are not local, in the order in which they were first met, and for each the definition that counts. Each call takes
/// the time of a look-up.
#[derive(Drop)]
pub(crate) struct Names<'a> {
    known: IndexMap<&'a [u8], Option<Seen<'a>>>,
}

impl<'a> Names<'a> {
    /// No name. It takes no memory.
    pub(crate) fn new(alloc: Global) -> Names<'a>
        ensures { AreNames [] result }
    {
        Names {
            known: IndexMap::new(alloc),
        }
    }

    /// The definition that counts for a name.
    pub(crate) fn definition(&self, name: &[u8]) -> Option<Seen<'a>>
        ensures { option_map met_of result ≡ definition_in self.now name.now }
    {
        match self.known.get(name) {
            Some(known) => *known,
            None => None,
        }
    }

    /// The definition that counts for a name, where it is global.
    pub(crate) fn global(&self, name: &[u8]) -> Option<Seen<'a>>
        ensures { option_map met_of result ≡ if_global (definition_in self.now name.now) }
    {
        let known = self.definition(name)?;
        if is_global(known.symbol.bind) {
            Some(known)
        } else {
            None
        }
    }

    /// The definitions that count, in the order of their names.
    pub(crate) fn definitions(&self, alloc: Global) -> Result<Vec<Seen<'a>>, NoMemory>
        ensures { IfOk result (λ found. map met_of found.items ≡ filter_map (definition_in self.now) (names_in self.now)) }
    {
        let mut found = Vec::new(alloc);
        for name in self.known.keys() {
            push_some(&mut found, self.definition(name))?;
        }
        Ok(found)
    }

    /// Meets a symbol. A local one has no part in the names.
    pub(crate) fn meet(&mut self, met: Seen<'a>) -> Result<(), NoMemory>
        ensures { OnOk result (Meets self.old self.new (met_of met.entry ∷ [])) }
    {
        if is_local(met.symbol.bind) {
            return Ok(());
        }
        let name = met.symbol.name.as_slice();
        let known = counting(self.definition(name), met);
        self.known.insert(name, known)?;
        Ok(())
    }
}
