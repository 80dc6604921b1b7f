//! What a command finds in the words.

ghost use Rattle.std.specs.Prelude.{◌≡◌, ◌≢◌, ◌↔◌, IsTrue, IfOk, IfErr, IfSome, IfNone, ℕ, true, [], Some, map, option_map, codes};
ghost use Rattle.clap.specs.Words.{app_of, fault_of, matches_of, rows_of, found_of, first_of, all_of, one_of, is_simple_and_free};
ghost use Rattle.cet.specs.Command.{texts};
ghost use Rattle.cet_verbs.specs.Named.{names_of};
ghost use Rattle.cet.specs.Words.{IsNumber, IsPlain};

use clap::error::ErrorKind;
use clap::{ArgMatches, Command};
use std::alloc::{AllocError, Global};

/// Why words gave no command.
#[derive(Clone, Copy, Debug, PartialEq, Eq)]
pub enum NoCommand {
    /// They ask for none.
    Refused,
    /// There was no memory.
    NoMemory,
}

impl From<AllocError> for NoCommand {
    ghost use Rattle.cet.specs.declared.found.NoCommand.TheVariants as no;

    ghost from_gives = { λ _ e. e ≡ no.NoMemory };

    fn from(_error: AllocError) -> NoCommand {
        NoCommand::NoMemory
    }
}

/// What the command finds in the words, the verb first.
pub fn find<'a>(command: Command<'a>, words: &'a [String]) -> Result<ArgMatches<'a>, NoCommand>
    requires { is_simple_and_free (app_of command) ≡ true }
    ensures taken { IfOk result (λ found. fault_of (app_of command.entry) (texts words.now) ≡ []) }
    ensures rows { IfOk result (λ found. rows_of (found_of found) ≡ matches_of (app_of command.entry) (texts words.now)) }
    ensures refused { IfErr result (λ why. why ≡ NoCommand.Refused → fault_of (app_of command.entry) (texts words.now) ≢ []) }
{
    match command.try_get_matches_from(words) {
        Ok(found) => Ok(found),
        Err(error) if error.kind() == ErrorKind::OutOfMemory => Err(NoCommand::NoMemory),
        Err(_) => Err(NoCommand::Refused),
    }
}

/// The value by this id.
pub fn value<'a>(found: &ArgMatches<'a>, id: &str) -> Option<&'a str>
    ensures { option_map (λ text. text.now) result ≡ first_of id.now (rows_of (found_of found.now)) }
{
    found.get_str(id)
}

/// Whether the flag of this id was given.
pub fn is_given(found: &ArgMatches<'_>, id: &str) -> bool
    ensures { IsTrue result ↔ (first_of id.now (rows_of (found_of found.now)) ≡ Some (codes "true")) }
{
    value(found, id) == Some("true")
}

/// The values by this id.
pub fn values<'a>(
    alloc: Global,
    found: &ArgMatches<'a>,
    id: &str,
) -> Result<Vec<&'a str>, NoCommand>
    ensures found { IfOk result (λ texts. all_of id.now (rows_of (found_of found.now)) ≡ Some (names_of texts.items)) }
    ensures refused { IfErr result (λ why. why ≡ NoCommand.Refused → all_of id.now (rows_of (found_of found.now)) ≡ None) }
{
    match found.get_raw(id) {
        Some(texts) => Ok(Vec::from_slice(alloc, texts)?),
        None => Err(NoCommand::Refused),
    }
}

// Whether the text of a number has no sign and no leading zero.
fn is_plain(text: &str) -> bool
    ensures { IsTrue result ↔ IsPlain (Some text.now) }
{
    match text.as_bytes().first() {
        Some(first) => b'1' <= *first && *first <= b'9',
        None => false,
    }
}

/// The number by this id, below 2^32, where its text has no sign and no leading zero.
pub fn plain_number(found: &ArgMatches<'_>, id: &str) -> Option<u32>
    ensures some { IfSome result (λ number. IsNumber (one_of id.now (rows_of (found_of found.now))) number) }
    ensures plain { IfSome result (λ number. IsPlain (first_of id.now (rows_of (found_of found.now)))) }
    ensures none { IfNone result ((number : ℕ) → IsNumber (one_of id.now (rows_of (found_of found.now))) number → ¬ IsPlain (first_of id.now (rows_of (found_of found.now)))) }
{
    match value(found, id) {
        Some(text) if is_plain(text) => number(found, id),
        _ => None,
    }
}

// The number by this id, which is below 2^32.
fn number(found: &ArgMatches<'_>, id: &str) -> Option<u32>
    ensures some { IfSome result (λ number. IsNumber (one_of id.now (rows_of (found_of found.now))) number) }
    ensures none { IfNone result ((number : ℕ) → ¬ IsNumber (one_of id.now (rows_of (found_of found.now))) number) }
{
    found.get_one::<u32>(id)
}
