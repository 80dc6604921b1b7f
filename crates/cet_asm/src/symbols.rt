//! The symbols of an object, and their numbers.
ghost use Rattle.std.specs.Prelude.{◌≡◌, ℕ, List, ◌∷◌, [], ◌++◌, IfOk, OnOk};
ghost use Rattle.cet_asm.specs.Assembled.{entry_0, undefined_symbol};
ghost use Rattle.cet_asm.specs.Whole.{IsNumbered, numbered_symbol, bound_symbols, is_bound as is_bound_of, first_uses};
ghost use Rattle.cet_asm.specs.Tables.{number_at};

use crate::definition::Definition;
use crate::kept::Kept;
use crate::table::Table;
use cet_base::{Items, NoMemory};
use cet_elf::{Bind, Symbol, SymbolKind, SymbolList, SymbolPlace};
use cet_syntax::Name;
use std::alloc::Global;

/// Symbols, and the number of each name.
#[derive(Drop)]
pub(crate) struct Symbols<'a> {
    pub(crate) list: SymbolList,
    pub(crate) numbers: Table<'a>,
}

impl<'a> Symbols<'a> {
    /// The symbol that stands for entry 0 (gABI, "Symbol Table").
    pub(crate) fn new(alloc: Global) -> Result<Symbols<'a>, NoMemory>
        ensures list { IfOk result (λ symbols. symbols.list ≡ entry_0 ∷ []) }
        ensures numbers { IfOk result IsNumbered }
    {
        let mut list = Items::new(alloc);
        list.push(Symbol {
            name: Items::new(alloc),
            kind: SymbolKind::None,
            bind: Bind::Local,
            place: SymbolPlace::Absolute,
            value: 0,
            size: 0,
        })?;
        Ok(Symbols {
            list,
            numbers: Table::new(alloc),
        })
    }

    // Adds a symbol of this name.
    fn push(&mut self, name: &Name<'a>, symbol: Symbol) -> Result<(), NoMemory>
        requires { symbol.name ≡ name.now }
        ensures list { OnOk result (self.new.list ≡ self.old.list ++ symbol ∷ []) }
        ensures numbers { OnOk result (IsNumbered self.old → IsNumbered self.new) }
    {
        let number = self.list.len() as u64;
        self.numbers.give(name.as_bytes(), number)?;
        self.list.push(symbol)?;
        Ok(())
    }

    // Adds the symbol of a definition.
    fn define(
        &mut self,
        alloc: Global,
        defined: &Definition<'a>,
        bind: Bind,
        section: u32,
    ) -> Result<(), NoMemory>
        ensures list { OnOk result (self.new.list ≡ self.old.list ++ numbered_symbol bind section defined.now ∷ []) }
        ensures numbers { OnOk result (IsNumbered self.old → IsNumbered self.new) }
    {
        let symbol = Symbol {
            name: Items::from_slice(alloc, defined.name.as_bytes())?,
            kind: defined.kind,
            bind,
            place: SymbolPlace::In(section),
            value: defined.value,
            size: defined.size,
        };
        self.push(&defined.name, symbol)
    }

    // Adds the symbol of a definition whose name is bound so.
    fn define_bound(
        &mut self,
        alloc: Global,
        defined: &Definition<'a>,
        globals: &Table<'a>,
        bind: Bind,
        kept: Kept,
    ) -> Result<(), NoMemory>
        ensures list { OnOk result (self.new.list ≡ self.old.list ++ bound_symbols bind (number_at globals.now) kept (defined.now ∷ [])) }
        ensures numbers { OnOk result (IsNumbered self.old → IsNumbered self.new) }
    {
        if is_bound(bind, globals.get(defined.name.as_bytes())) {
            let section = kept.number(defined.section);
            return self.define(alloc, defined, bind, section);
        }
        Ok(())
    }

    /// Adds the symbols of the definitions whose names are global, or of those whose names are not.
    pub(crate) fn define_all(
        &mut self,
        alloc: Global,
        defined: &[Definition<'a>],
        globals: &Table<'a>,
        bind: Bind,
        kept: Kept,
    ) -> Result<(), NoMemory>
        ensures list { OnOk result (self.new.list ≡ self.old.list ++ bound_symbols bind (number_at globals.now) kept defined.now) }
        ensures numbers { OnOk result (IsNumbered self.old → IsNumbered self.new) }
    {
        for d in defined {
            self.define_bound(alloc, d, globals, bind, kept)?;
        }
        Ok(())
    }

    // Adds a name that is defined nowhere.
    fn mention(&mut self, alloc: Global, name: &Name<'a>) -> Result<(), NoMemory>
        ensures list { OnOk result (self.new.list ≡ self.old.list ++ undefined_symbol name.now ∷ []) }
        ensures numbers { OnOk result (IsNumbered self.old → IsNumbered self.new) }
    {
        let symbol = Symbol {
            name: Items::from_slice(alloc, name.as_bytes())?,
            kind: SymbolKind::None,
            bind: Bind::Global,
            place: SymbolPlace::Undefined,
            value: 0,
            size: 0,
        };
        self.push(name, symbol)
    }

    // Adds a name that has no symbol yet.
    fn mention_new(&mut self, alloc: Global, name: &Name<'a>) -> Result<(), NoMemory>
        ensures list { OnOk result (IsNumbered self.old → (names : List (List ℕ)) → self.new.list ++ first_uses self.new.list names ≡ self.old.list ++ first_uses self.old.list (name.now ∷ names)) }
        ensures numbers { OnOk result (IsNumbered self.old → IsNumbered self.new) }
    {
        match self.numbers.get(name.as_bytes()) {
            Some(_) => Ok(()),
            None => self.mention(alloc, name),
        }
    }

    /// Adds each name that has no symbol yet, in the order of their first use.
    pub(crate) fn mention_all(&mut self, alloc: Global, names: &[Name<'a>]) -> Result<(), NoMemory>
        ensures list { OnOk result (IsNumbered self.old → self.new.list ≡ self.old.list ++ first_uses self.old.list names.now) }
        ensures numbers { OnOk result (IsNumbered self.old → IsNumbered self.new) }
    {
        for name in names {
            self.mention_new(alloc, name)?;
        }
        Ok(())
    }
}

// Whether a name with this entry among the global names is bound so.
fn is_bound(bind: Bind, global: Option<u64>) -> bool
    ensures { result ≡ is_bound_of bind global }
{
    match bind {
        Bind::Global => global.is_some(),
        _ => global.is_none(),
    }
}
