//! The text of notes.

ghost use Rattle.std.specs.Prelude.{◌≡◌, ◌++◌, length, codes, IfOk, OnOk};
ghost use Rattle.std.specs.List.{flat_map};
ghost use Rattle.cet_verbs.specs.Named.{names_of};
ghost use Rattle.cet_verbs.specs.Notes.{word_text, property_text, note_text, note_line, note_lines, notes_text};

use byteorder::{BigEndian, ByteOrder};
use cet_base::NoMemory;
use cet_note::Props;
use std::alloc::Global;

// Adds a word in hexadecimal.
fn put_word(text: &mut Vec<u8>, word: u32) -> Result<(), NoMemory>
    ensures { OnOk result (text.new.items ≡ text.old.items ++ word_text word) }
{
    let mut bytes = [0; 4];
    BigEndian::write_u32(&mut bytes, word);
    let mut digits = [0; 8];
    hex::encode_to_slice(bytes, &mut digits).unwrap();
    text.extend_from_slice(b"0x")?;
    text.extend_from_slice(&digits)?;
    Ok(())
}

// Adds a property.
fn put_property(text: &mut Vec<u8>, kind: u32, bits: u32) -> Result<(), NoMemory>
    ensures { OnOk result (text.new.items ≡ text.old.items ++ property_text (kind, bits)) }
{
    put_word(text, kind)?;
    text.push(b'=')?;
    put_word(text, bits)?;
    Ok(())
}

// Adds the properties, each after a space.
fn put_properties(text: &mut Vec<u8>, note: &Props) -> Result<(), NoMemory>
    ensures { OnOk result (text.new.items ≡ text.old.items ++ flat_map (λ property. codes " " ++ property_text property) note.now) }
{
    for (kind, bits) in note.iter() {
        text.push(b' ')?;
        put_property(text, *kind, *bits)?;
    }
    Ok(())
}

// Adds the line of a note.
fn put_line(text: &mut Vec<u8>, name: &str, note: &Props) -> Result<(), NoMemory>
    ensures { OnOk result (text.new.items ≡ text.old.items ++ note_line name.now note.now) }
{
    text.extend_from_slice(name.as_bytes())?;
    text.push(b':')?;
    if note.is_empty() {
        text.extend_from_slice(b" none")?;
    } else {
        put_properties(text, note)?;
    }
    text.push(b'\n')?;
    Ok(())
}

// Adds the line of each note.
fn put_lines(text: &mut Vec<u8>, names: &[&str], notes: &[Props]) -> Result<(), NoMemory>
    requires { length names.now ≡ length notes.now }
    ensures { OnOk result (text.new.items ≡ text.old.items ++ note_lines (names_of names.now) notes.now) }
{
    for (i, name) in names.iter().enumerate() {
        put_line(text, *name, &notes[i])?;
    }
    Ok(())
}

/// A line for each file with its note, and the line of their merge. There is a note for each file.
pub fn notes_report(
    alloc: Global,
    names: &[&str],
    notes: &[Props],
    merged: &Props,
) -> Result<Vec<u8>, NoMemory>
    requires { length names.now ≡ length notes.now }
    ensures { IfOk result (λ text. text.items ≡ notes_text (names_of names.now) notes.now merged.now) }
{
    let mut text = Vec::new(alloc);
    put_lines(&mut text, names, notes)?;
    put_line(&mut text, "merged", merged)?;
    Ok(text)
}
