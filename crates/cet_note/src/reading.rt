//! Reading a property note.

ghost use Rattle.std.specs.Prelude.{◌≡◌, ◌+◌, ◌<◌, ◌≤◌, ◌^◌, ◌%◌, ◌≢◌, Ok, Err, length, take, drop, IfOk, IfErr};
ghost use Rattle.cet_base.specs.Field.{little_endian};
ghost use Rattle.cet_note.specs.Note.{Note};
ghost use Rattle.cet_note.specs.Form.{IsForm, padding_of};
ghost use Rattle.cet_note.specs.declared.fault.NoteError.{NoteError};
ghost use Rattle.cet_note.specs.FirstFault.{IsFirstFault};
ghost use Rattle.cet_note.specs.Fault.{Gives, demand as demanded, above as is_above, word_at, bytes_at, header_in, property_in, properties_in, note_in, next_at, size_fits};

use crate::fault::NoteError;
use crate::props::Props;
use crate::ranges::is_word_type;
use cet_base::field_u32;
use std::alloc::Global;

// A property as it is read: its type, the size of its data in bytes, and its word, if its type is of the three ranges.
#[derive(Clone, Copy)]
struct Entry {
    kind: u32,
    size: u32,
    word: Option<u32>,
}

// The word of 4 bytes at `at`.
fn word(bytes: &[u8], at: u64) -> Result<u32, NoteError>
    ensures { Gives (λ n. n) result (word_at bytes.now at) }
{
    field_u32(bytes, at).ok_or(NoteError::Cut { at })
}

// The `size` bytes at `at`.
fn content(bytes: &[u8], at: u64, size: u64) -> Result<&[u8], NoteError>
    requires { at + size < 2 ^ 64 }
    ensures { Gives (λ part. part.now) result (bytes_at bytes.now at size) }
{
    if at + size > bytes.len() as u64 {
        return Err(NoteError::Cut { at });
    }
    Ok(&bytes[at as usize..(at + size) as usize])
}

// How many bytes of padding stand after `size` bytes of data.
fn padding(size: u64) -> u64
    ensures { result ≡ padding_of size }
{
    (8 - size % 8) % 8
}

// The data and padding of a property whose size field is at `at` end within the descriptor, and a word has 4 bytes.
fn fits(end: u64, kind: u32, size: u32, at: u64) -> bool
    requires { at < 2 ^ 63 }
    ensures { result ≡ size_fits end kind size at }
{
    let size = u64::from(size);
    at + 4 + size + padding(size) <= end && (!is_word_type(kind) || size == 4)
}

fn demand(rule: bool, fault: NoteError) -> Result<(), NoteError>
    ensures { Gives (λ _. tt) result (demanded rule fault) }
{
    if rule { Ok(()) } else { Err(fault) }
}

// The size of the descriptor, from the header of the note.
#[tactic(auto, unfolding(crate::specs::Fault::header_in))]
fn header(bytes: &[u8]) -> Result<u32, NoteError>
    ensures { Gives (λ n. n) result (header_in bytes.now) }
{
    let name_size = word(bytes, 0)?;
    demand(name_size == 4, NoteError::Name { at: 0 })?;
    let size = word(bytes, 4)?;
    demand(size % 8 == 0, NoteError::Size { at: 4 })?;
    let kind = word(bytes, 8)?;
    demand(kind == 5, NoteError::Kind { at: 8 })?;
    let name = word(bytes, 12)?;
    demand(name == 0x0055_4e47, NoteError::Name { at: 12 })?;
    Ok(size)
}

// A property type stands above the last one, if there is one.
fn above(last: Option<u32>, kind: u32, at: u64) -> Result<(), NoteError>
    ensures { Gives (λ _. tt) result (is_above last kind at) }
{
    match last {
        Some(last) if kind == last => Err(NoteError::Twice { at }),
        Some(last) if kind < last => Err(NoteError::Order { at }),
        _ => Ok(()),
    }
}

// The property at `at` of a descriptor that ends at `end`, after one of the type `last`.
#[tactic(auto, unfolding(crate::specs::Fault::property_in))]
fn property(bytes: &[u8], end: u64, last: Option<u32>, at: u64) -> Result<Entry, NoteError>
    requires { at < 2 ^ 62 }
    ensures { Gives (λ e. record { kind = e.kind; size = e.size; word = e.word }) result (property_in bytes.now end last at) }
{
    let kind = word(bytes, at)?;
    above(last, kind, at)?;
    let size = word(bytes, at + 4)?;
    demand(
        fits(end, kind, size, at + 4),
        NoteError::Size { at: at + 4 },
    )?;
    let data = content(bytes, at + 8, u64::from(size))?;
    content(bytes, at + 8 + u64::from(size), padding(u64::from(size)))?;
    let word = if is_word_type(kind) {
        field_u32(data, 0)
    } else {
        None
    };
    Ok(Entry { kind, size, word })
}

// The properties of a descriptor of `size` bytes, which begins at 16.
fn properties(alloc: Global, bytes: &[u8], size: u32) -> Result<Props, NoteError>
    ensures { Gives (λ props. props) result (properties_in size bytes.now (16 + size) None 16) }
{
    let end = 16 + u64::from(size);
    let mut props = Props::new(alloc);
    let mut last = None;
    let mut at = 16;
    while at < end {
        let entry = property(bytes, end, last, at)?;
        if let Some(bits) = entry.word {
            props.set(entry.kind, bits)?;
        }
        last = Some(entry.kind);
        let size = u64::from(entry.size);
        at += 8 + size + padding(size);
    }
    Ok(props)
}

// The note that the bytes are, or the first fault.
#[tactic(auto, unfolding(crate::specs::Fault::note_in))]
fn whole(alloc: Global, bytes: &[u8]) -> Result<Props, NoteError>
    ensures { Gives (λ props. props) result (note_in bytes.now) }
{
    if bytes.is_empty() {
        return Ok(Props::new(alloc));
    }
    let size = header(bytes)?;
    let props = properties(alloc, bytes, size)?;
    let end = 16 + u64::from(size);
    demand(bytes.len() as u64 <= end, NoteError::Size { at: end })?;
    Ok(props)
}

/// Reads the note of a `.note.gnu.property` section. No bytes are the note without properties. The first fault from left
/// to right is refused, with the offset of its field; properties outside the three ranges of `is_word_type` are passed
/// over (ELF gABI, "Note Section"; System V x86-64 psABI, "Program Property").
pub fn read_note(alloc: Global, bytes: &[u8]) -> Result<Props, NoteError>
    // What is read is what the bytes stand for.
    ensures found { IfOk result (IsForm bytes.now) }
    // Bytes that stand for a note are read as that note, unless memory runs out.
    ensures only { (note : Note) → IsForm bytes.now note → Gives (λ props. props) result (Ok note) }
    // What is refused has that fault first, and the first fault is refused, unless memory runs out.
    ensures fault { IfErr result (λ e. e ≢ NoteError.NoMemory → IsFirstFault bytes.now e) }
    ensures refused { (e : NoteError) → IsFirstFault bytes.now e → Gives (λ props. props) result (Err e) }
    // The same by the reading that computes.
    ensures exact { Gives (λ props. props) result (note_in bytes.now) }
{
    whole(alloc, bytes)
}
