//! The statements of a text, with their lines.
ghost use Rattle.std.specs.Prelude.{◌≡◌, ◌++◌, map, OnOk, IfOk, min, ◌+◌, ◌-◌, ◌^◌};
ghost use Rattle.std.specs.List.{flat_map};
ghost use Rattle.cet_syntax.specs.Lines.{items_of, numbered, parts, items_on, items_in, next_line as next_line_of};
ghost use Rattle.cet_syntax.specs.Pieces.{trimmed as trimmed_text};

use crate::name::Name;
use crate::pieces::{before, behind, trimmed};
use crate::reading::read_label;
use cet_base::NoMemory;
use std::alloc::Global;
use std::marker::Model;

/// A piece of the text. Contracts see its bytes.
#[derive(Drop)]
pub struct Piece<'a> {
    bytes: &'a [u8],
}

impl<'a> Model for Piece<'a> {
    ghost use Rattle.std.specs.Prelude.{ℕ, List};

    ghost Value = { List ℕ };

    ghost view = { λ piece. piece.bytes.now };
}

impl<'a> Piece<'a> {
    /// Its bytes.
    pub fn as_bytes(&self) -> &'a [u8]
        ensures { result.now ≡ self.now }
    {
        self.bytes
    }
}

/// A statement as it is written. A label is one of its own.
#[derive(Drop)]
pub enum Item<'a> {
    /// `NAME:`.
    Label(Name<'a>),
    /// A word and its operands, without spaces around.
    Body(Piece<'a>),
}

/// A statement and its line, from 1.
#[derive(Drop)]
pub struct Numbered<'a> {
    pub line: u32,
    pub item: Item<'a>,
}

// Adds the labels, then the statement, where there is one.
fn push_items<'a>(out: &mut Vec<Numbered<'a>>, line: u32, bytes: &'a [u8]) -> Result<(), NoMemory>
    ensures { OnOk result (out.new.items ≡ out.old.items ++ numbered line (items_of bytes.now)) }
{
    let mut rest = bytes;
    while let Some((name, next)) = read_label(rest) {
        let item = Item::Label(name);
        out.push(Numbered { line, item })?;
        rest = next;
    }
    if !rest.is_empty() {
        let item = Item::Body(Piece { bytes: rest });
        out.push(Numbered { line, item })?;
    }
    Ok(())
}

const HASH: u8 = b'#';

const SEMICOLON: u8 = b';';

const LINE_FEED: u8 = b'\n';

// Adds the items of the statements that semicolons part.
fn push_statements<'a>(
    out: &mut Vec<Numbered<'a>>,
    line: u32,
    text: &'a [u8],
) -> Result<(), NoMemory>
    ensures { OnOk result (out.new.items ≡ out.old.items ++ numbered line (flat_map items_of (map trimmed_text (parts 59 text.now)))) }
{
    let mut rest = Some(text);
    while let Some(statements) = rest {
        push_items(out, line, trimmed(before(SEMICOLON, statements)))?;
        rest = behind(SEMICOLON, statements);
    }
    Ok(())
}

// Adds the items of a line.
fn push_line<'a>(out: &mut Vec<Numbered<'a>>, line: u32, text: &'a [u8]) -> Result<(), NoMemory>
    ensures { OnOk result (out.new.items ≡ out.old.items ++ items_on line text.now) }
{
    push_statements(out, line, before(HASH, text))
}

fn next_line(line: u32) -> u32
    ensures { result ≡ next_line_of line }
{
    line.saturating_add(1)
}

/// The statements of a text, with their lines. Labels are statements of their own; what is empty is none.
pub fn read_items<'a>(alloc: Global, text: &'a [u8]) -> Result<Vec<Numbered<'a>>, NoMemory>
    ensures { IfOk result (λ items. items.items ≡ items_in text.now) }
{
    let mut out = Vec::new(alloc);
    let mut line = 1;
    let mut rest = Some(text);
    while let Some(lines) = rest {
        push_line(&mut out, line, before(LINE_FEED, lines))?;
        line = next_line(line);
        rest = behind(LINE_FEED, lines);
    }
    Ok(out)
}
