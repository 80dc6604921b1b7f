//! The words of statements: of instructions, directives and sites.
ghost use Rattle.std.specs.Prelude.{◌≡◌};
ghost use Rattle.std.specs.Option.{option_map};
ghost use Rattle.cet_syntax.specs.Keyword.{directive_word as directive_word_of, site_word as site_word_of, plain_keyword, locked_keyword, untracked_keyword, headed, headed_by};

use crate::pieces::{behind_first_word, first_word};
use crate::word::{Word, is, read_word, with_lock, with_notrack};

/// The words of directives.
#[derive(Clone, Copy, Debug, PartialEq, Eq)]
pub enum DirectiveWord {
    Section,
    Func,
    End,
    Object,
    Global,
    Word,
    Byte,
    Zero,
    Align,
    Off,
    Note,
}

/// The words of sites.
#[derive(Clone, Copy, Debug, PartialEq, Eq)]
pub enum SiteWord {
    Land,
    Release,
    Throw,
    Switch,
    FiberMake,
    Spawn,
    Action,
    Read,
}

/// What a statement begins with.
#[derive(Clone, Copy, Debug, PartialEq, Eq)]
pub enum Keyword {
    Instruction(Word),
    Directive(DirectiveWord),
    Site(SiteWord),
}

fn directive_word(name: &[u8]) -> Option<DirectiveWord>
    ensures { result ≡ directive_word_of name.now }
{
    if is(name, b".section") {
        return Some(DirectiveWord::Section);
    }
    if is(name, b".func") {
        return Some(DirectiveWord::Func);
    }
    if is(name, b".end") {
        return Some(DirectiveWord::End);
    }
    if is(name, b".object") {
        return Some(DirectiveWord::Object);
    }
    if is(name, b".global") {
        return Some(DirectiveWord::Global);
    }
    if is(name, b".word") {
        return Some(DirectiveWord::Word);
    }
    if is(name, b".byte") {
        return Some(DirectiveWord::Byte);
    }
    if is(name, b".zero") {
        return Some(DirectiveWord::Zero);
    }
    if is(name, b".align") {
        return Some(DirectiveWord::Align);
    }
    if is(name, b".off") {
        return Some(DirectiveWord::Off);
    }
    if is(name, b".note") {
        return Some(DirectiveWord::Note);
    }
    None
}

fn site_word(name: &[u8]) -> Option<SiteWord>
    ensures { result ≡ site_word_of name.now }
{
    if is(name, b"land") {
        return Some(SiteWord::Land);
    }
    if is(name, b"release") {
        return Some(SiteWord::Release);
    }
    if is(name, b"throw") {
        return Some(SiteWord::Throw);
    }
    if is(name, b"switch") {
        return Some(SiteWord::Switch);
    }
    if is(name, b"fibermake") {
        return Some(SiteWord::FiberMake);
    }
    if is(name, b"spawn") {
        return Some(SiteWord::Spawn);
    }
    if is(name, b"action") {
        return Some(SiteWord::Action);
    }
    if is(name, b"read") {
        return Some(SiteWord::Read);
    }
    None
}

fn plain(name: &[u8]) -> Option<Keyword>
    ensures { result ≡ plain_keyword name.now }
{
    if let Some(word) = read_word(name) {
        return Some(Keyword::Instruction(word));
    }
    if let Some(word) = directive_word(name) {
        return Some(Keyword::Directive(word));
    }
    site_word(name).map(Keyword::Site)
}

// The word behind `lock`.
fn locked(name: &[u8]) -> Option<Keyword>
    ensures { result ≡ locked_keyword name.now }
{
    let word = with_lock(read_word(name)?)?;
    Some(Keyword::Instruction(word))
}

// The word behind `notrack`.
fn untracked(name: &[u8]) -> Option<Keyword>
    ensures { result ≡ untracked_keyword name.now }
{
    let word = with_notrack(read_word(name)?)?;
    Some(Keyword::Instruction(word))
}

/// The words that a statement begins with, and what stands behind them. None where the statement is unknown.
pub fn head(bytes: &[u8]) -> Option<(Keyword, &[u8])>
    ensures { option_map (λ h. record { keyword = h.0; rest = h.1.now }) result ≡ headed_by bytes.now }
{
    let word = first_word(bytes);
    let rest = behind_first_word(bytes);
    if is(word, b"lock") {
        let keyword = locked(first_word(rest))?;
        return Some((keyword, behind_first_word(rest)));
    }
    if is(word, b"notrack") {
        let keyword = untracked(first_word(rest))?;
        return Some((keyword, behind_first_word(rest)));
    }
    let keyword = plain(word)?;
    Some((keyword, rest))
}
