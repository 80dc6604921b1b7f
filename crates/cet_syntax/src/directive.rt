//! Directives: a word, and operands that are parted by spaces, those of `.off` by a comma.
ghost use Rattle.std.specs.Prelude.{◌≡◌};
ghost use Rattle.std.specs.Option.{option_copied};
ghost use Rattle.cet_syntax.specs.Statement.{one_word as one_word_of, section_of, quad_of, alignment_of, note_word as note_word_of, both_words as both_words_of, note_words as note_words_of, size_field, byte_of, object_of, two_names as two_names_of, named as named_of, directive_of};

use crate::error::SyntaxError;
use crate::keyword::DirectiveWord;
use crate::name::Name;
use crate::number::Number;
use crate::pieces::{before, behind, behind_first_word, first_word, trimmed};
use crate::statement::{Directive, NoteWords, Quad, SectionName};
use crate::word::is;

// The only word.
fn one_word(bytes: &[u8]) -> Option<&[u8]>
    ensures { option_copied result ≡ one_word_of bytes.now }
{
    if behind_first_word(bytes).is_empty() {
        Some(first_word(bytes))
    } else {
        None
    }
}

fn section(bytes: &[u8]) -> Option<SectionName>
    ensures { result ≡ section_of bytes.now }
{
    if is(bytes, b"text") {
        return Some(SectionName::Text);
    }
    if is(bytes, b"rodata") {
        return Some(SectionName::Rodata);
    }
    if is(bytes, b"data") {
        return Some(SectionName::Data);
    }
    if is(bytes, b"bss") {
        return Some(SectionName::Bss);
    }
    None
}

// A number of 64 bits, or `@NAME` alone.
fn quad(bytes: &[u8]) -> Result<Quad<'_>, SyntaxError>
    ensures { result ≡ quad_of bytes.now }
{
    if bytes.starts_with(b"@") {
        return match Name::read(&bytes[1..]) {
            Some(name) => Ok(Quad::Symbol(name)),
            None => Err(SyntaxError::Operand),
        };
    }
    let number = Number::read(bytes).ok_or(SyntaxError::Operand)?;
    let value = number.as_quad().ok_or(SyntaxError::Range)?;
    Ok(Quad::Number(value))
}

fn byte(bytes: &[u8]) -> Result<u8, SyntaxError>
    ensures { result ≡ byte_of bytes.now }
{
    let number = Number::read(bytes).ok_or(SyntaxError::Operand)?;
    number.as_byte().ok_or(SyntaxError::Range)
}

// A size.
fn size(bytes: &[u8]) -> Result<u64, SyntaxError>
    ensures { result ≡ size_field bytes.now }
{
    let number = Number::read(bytes).ok_or(SyntaxError::Operand)?;
    number.as_u64().ok_or(SyntaxError::Range)
}

fn alignment(n: u64) -> Option<u64>
    ensures { result ≡ alignment_of n }
{
    if n == 1 || n == 2 || n == 4 || n == 8 || n == 16 {
        Some(n)
    } else {
        None
    }
}

fn note_word(bytes: &[u8]) -> Option<NoteWords>
    ensures { result ≡ note_word_of bytes.now }
{
    match bytes {
        b"ibt" => Some(NoteWords {
            ibt: true,
            shstk: false,
        }),
        b"shstk" => Some(NoteWords {
            ibt: false,
            shstk: true,
        }),
        _ => None,
    }
}

// Each word once.
fn both_words(a: NoteWords, b: NoteWords) -> Option<NoteWords>
    ensures { result ≡ both_words_of a b }
{
    if (a.ibt && b.ibt) || (a.shstk && b.shstk) {
        return None;
    }
    Some(NoteWords {
        ibt: a.ibt || b.ibt,
        shstk: a.shstk || b.shstk,
    })
}

// One or both of the words, in any order.
fn note_words(bytes: &[u8]) -> Option<NoteWords>
    ensures { result ≡ note_words_of bytes.now }
{
    let rest = behind_first_word(bytes);
    let first = note_word(first_word(bytes));
    if rest.is_empty() {
        return first;
    }
    let first = first?;
    let second = note_word(one_word(rest)?)?;
    both_words(first, second)
}

fn object(bytes: &[u8]) -> Result<Directive<'_>, SyntaxError>
    ensures { result ≡ object_of bytes.now }
{
    match Name::read(first_word(bytes)) {
        Some(name) => {
            let size = size(behind_first_word(bytes))?;
            Ok(Directive::Object(name, size))
        }
        None => Err(SyntaxError::Operand),
    }
}

const COMMA: u8 = b',';

// Two names with a comma between them.
fn two_names(bytes: &[u8]) -> Option<(Name<'_>, Name<'_>)>
    ensures { result ≡ two_names_of bytes.now }
{
    let name = Name::read(trimmed(before(COMMA, bytes)))?;
    let table = Name::read(trimmed(behind(COMMA, bytes)?))?;
    Some((name, table))
}

// The directive on a name.
fn named(word: DirectiveWord, bytes: &[u8]) -> Result<Directive<'_>, SyntaxError>
    ensures { result ≡ named_of word bytes.now }
{
    match Name::read(bytes) {
        Some(name) => match word {
            DirectiveWord::Func => Ok(Directive::Func(name)),
            _ => Ok(Directive::Global(name)),
        },
        None => Err(SyntaxError::Operand),
    }
}

/// The directive of this word with these operands.
pub(crate) fn directive(word: DirectiveWord, bytes: &[u8]) -> Result<Directive<'_>, SyntaxError>
    ensures { result ≡ directive_of word bytes.now }
{
    match word {
        DirectiveWord::Section => {
            let name = section(bytes).ok_or(SyntaxError::Operand)?;
            Ok(Directive::Section(name))
        }
        DirectiveWord::Func | DirectiveWord::Global => named(word, bytes),
        DirectiveWord::End => {
            if bytes.is_empty() {
                Ok(Directive::End)
            } else {
                Err(SyntaxError::Operand)
            }
        }
        DirectiveWord::Object => object(bytes),
        DirectiveWord::Word => {
            let value = quad(bytes)?;
            Ok(Directive::Word(value))
        }
        DirectiveWord::Byte => {
            let value = byte(bytes)?;
            Ok(Directive::Byte(value))
        }
        DirectiveWord::Zero => {
            let size = size(bytes)?;
            Ok(Directive::Zero(size))
        }
        DirectiveWord::Align => {
            let boundary = alignment(size(bytes)?).ok_or(SyntaxError::Range)?;
            Ok(Directive::Align(boundary))
        }
        DirectiveWord::Off => match two_names(bytes) {
            Some((name, table)) => Ok(Directive::Off { name, table }),
            None => Err(SyntaxError::Operand),
        },
        DirectiveWord::Note => {
            let words = note_words(bytes).ok_or(SyntaxError::Operand)?;
            Ok(Directive::Note(words))
        }
    }
}
