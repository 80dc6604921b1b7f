//! The functions that symbols name.

ghost use Rattle.std.specs.Prelude.{◌≡◌, ℕ, ◌<◌, ◌&&◌, nat_lt, map, filter, IfOk};
ghost use Rattle.cet_image.specs.Executable.{names_function, function_of, AreFunctionsOf};

use cet_base::NoMemory;
use cet_elf::{ExecSymbol, SymbolKind};
use cet_rules::{Function, FunctionList};
use std::alloc::Global;

// A symbol of type STT_FUNC whose size is not 0.
fn names_function(symbol: &ExecSymbol) -> bool
    ensures { result ≡ names_function symbol.now }
{
    matches!(symbol.kind, SymbolKind::Func) && symbol.size > 0
}

fn function_of(symbol: &ExecSymbol) -> Function
    ensures { result ≡ function_of symbol.now }
{
    Function {
        start: symbol.value,
        size: symbol.size,
    }
}

// The functions by the order of the symbol table, one for each symbol.
fn named_functions(alloc: Global, symbols: &[ExecSymbol]) -> Result<Vec<Function>, NoMemory>
    ensures { IfOk result (λ functions. functions.items ≡ map function_of (filter names_function symbols.now)) }
{
    let mut functions = Vec::new(alloc);
    for symbol in symbols {
        if names_function(symbol) {
            functions.push(function_of(symbol))?;
        }
    }
    Ok(functions)
}

/// The functions that symbols name, each once, ascending by start and then by size. Sorting them takes n log n steps.
pub fn functions_of(alloc: Global, symbols: &[ExecSymbol]) -> Result<FunctionList, NoMemory>
    ensures { IfOk result (AreFunctionsOf symbols.now) }
{
    let mut functions = named_functions(alloc, symbols)?;
    functions.sort_unstable_by_key(|f| (f.start, f.size));
    functions.dedup();
    FunctionList::from_slice(alloc, &functions)
}
