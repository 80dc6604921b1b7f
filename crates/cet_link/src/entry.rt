//! The entry of the executable.

ghost use Rattle.std.specs.Prelude.{◌≡◌, Some, IfOk, not};
ghost use Rattle.cet_link.specs.declared.error.LinkError.TheVariants as errors;
ghost use Rattle.cet_link.specs.First.{Finds, where_true};
ghost use Rattle.cet_link.specs.Faults.{is_entry as is_entry_in, is_entry_point};
ghost use Rattle.cet_link.specs.Known.{met_of, definition_in};

use crate::error::LinkError;
use crate::names::{Names, Seen};
use cet_elf::SymbolKind;

// STT_NOTYPE and STT_FUNC.
fn is_entry(kind: SymbolKind) -> bool
    ensures { result ≡ is_entry_in kind }
{
    match kind {
        SymbolKind::None | SymbolKind::Func => true,
        SymbolKind::Object | SymbolKind::Section => false,
    }
}

/// The definition that counts for the entry's name.
pub(crate) fn entry<'a>(names: &Names<'a>, name: &str) -> Result<Seen<'a>, LinkError>
    ensures fault { Finds result (where_true (not (is_entry_point (definition_in names.now name.now))) errors.NoEntry) }
    ensures found { IfOk result (λ d. definition_in names.now name.now ≡ Some (met_of d)) }
{
    match names.definition(name.as_bytes()) {
        Some(definition) if is_entry(definition.symbol.kind) => Ok(definition),
        _ => Err(LinkError::NoEntry),
    }
}
