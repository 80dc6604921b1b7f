//! Inputs that are refused, and the first fault that counts.

mod entries;
mod inputs;
mod order;
mod relocations;
mod sizes;
mod symbols;

use crate::samples::{Sample, SectionRow, SymbolRow, are_consistent, objects_of, zeros};
use crate::{LinkError, link};
use cet_base::{Bytes, NoMemory, Text};
use cet_elf::{
    Bind, Class, Object, Rela, RelaList, Section, SectionList, Symbol, SymbolKind, SymbolList,
    SymbolPlace,
};
use cet_note::NoteError;
use std::alloc::Global;

// What is refused.
#[derive(Clone, Copy)]
enum Want {
    Nothing,
    Note(u32, NoteError),
    Group(u32),
    Common(&'static [u8], u32),
    Duplicate(&'static [u8], u32, u32),
    Undefined(&'static [u8], u32),
    NoEntry,
    TooLarge,
    Overflow(u32, u32, u64),
}

struct Row {
    inputs: &'static [Sample],
    want: Want,
}

const NONE: SymbolKind = SymbolKind::None;

const FUNC: SymbolKind = SymbolKind::Func;

const OBJECT: SymbolKind = SymbolKind::Object;

const LOCAL: Bind = Bind::Local;

const GLOBAL: Bind = Bind::Global;

const WEAK: Bind = Bind::Weak;

const UNDEFINED: SymbolPlace = SymbolPlace::Undefined;

const ABSOLUTE: SymbolPlace = SymbolPlace::Absolute;

const COMMON: SymbolPlace = SymbolPlace::Common;

const CODE: SymbolPlace = SymbolPlace::In(0);

const START: SymbolRow = (b"_start", FUNC, GLOBAL, CODE, 0);

const NOWHERE: SymbolRow = (b"nowhere", NONE, GLOBAL, UNDEFINED, 0);

const SHARED: SymbolRow = (b"c", OBJECT, GLOBAL, COMMON, 8);

const F: SymbolRow = (b"f", FUNC, GLOBAL, CODE, 0);

const TEXT: SectionRow = SectionRow {
    class: Class::Code,
    align: 16,
    size: 8,
    relocations: &[],
};

const GROUP: SectionRow = SectionRow {
    class: Class::Group,
    align: 1,
    size: 4,
    relocations: &[],
};

// A sum below 0 in a field that is extended by zeros, at 1.
const NEGATIVE: SectionRow = SectionRow {
    class: Class::Code,
    align: 16,
    size: 8,
    relocations: &[Rela {
        offset: 1,
        kind: 10,
        symbol: 0,
        addend: -5_242_880,
    }],
};

const NOTE: &[u8] = b"\x04\0\0\0\x10\0\0\0\x05\0\0\0GNU\0\x02\0\0\xc0\x04\0\0\0\x03\0\0\0\0\0\0\0";

fn is_note(fault: &LinkError, number: u32, wanted: NoteError) -> bool {
    matches!(fault, LinkError::Note { input, error } if *input == number && *error == wanted)
}

fn is_group(fault: &LinkError, number: u32) -> bool {
    matches!(fault, LinkError::Group { input } if *input == number)
}

fn is_common(fault: &LinkError, text: &[u8], number: u32) -> bool {
    matches!(fault, LinkError::Common { name, input } if name.as_slice() == text && *input == number)
}

fn is_duplicate(fault: &LinkError, text: &[u8], a: u32, b: u32) -> bool {
    matches!(fault, LinkError::Duplicate { name, first, second } if name.as_slice() == text && *first == a && *second == b)
}

fn is_undefined(fault: &LinkError, text: &[u8], number: u32) -> bool {
    matches!(fault, LinkError::Undefined { name, input } if name.as_slice() == text && *input == number)
}

fn is_overflow(fault: &LinkError, a: u32, b: u32, at: u64) -> bool {
    matches!(fault, LinkError::Overflow { input, section, offset } if *input == a && *section == b && *offset == at)
}

fn is_refused(fault: &LinkError, want: &Want) -> bool {
    match want {
        Want::Nothing => false,
        Want::Note(number, error) => is_note(fault, *number, *error),
        Want::Group(number) => is_group(fault, *number),
        Want::Common(text, number) => is_common(fault, text, *number),
        Want::Duplicate(text, first, second) => is_duplicate(fault, text, *first, *second),
        Want::Undefined(text, number) => is_undefined(fault, text, *number),
        Want::NoEntry => matches!(fault, LinkError::NoEntry),
        Want::TooLarge => matches!(fault, LinkError::TooLarge),
        Want::Overflow(input, section, offset) => is_overflow(fault, *input, *section, *offset),
    }
}

fn is_nothing(want: &Want) -> bool {
    matches!(want, Want::Nothing)
}

// Whether the answer is the one wanted. No answer for objects that are no inputs of a link.
fn answers(alloc: Global, inputs: &[Object], want: &Want) -> bool {
    if inputs.len() > 100 || !are_consistent(inputs) {
        return false;
    }
    match link(alloc, inputs, "_start") {
        Ok(_) => is_nothing(want),
        Err(fault) => is_refused(&fault, want),
    }
}

fn all_answer(alloc: Global, rows: &[Row]) -> Result<bool, NoMemory> {
    for row in rows {
        let inputs = objects_of(alloc, row.inputs)?;
        if !answers(alloc, &inputs, &row.want) {
            return Ok(false);
        }
    }
    Ok(true)
}

fn symbol(alloc: Global, name: &[u8], value: u64) -> Result<Symbol, NoMemory> {
    Ok(Symbol {
        name: Text::from_slice(alloc, name)?,
        kind: NONE,
        bind: GLOBAL,
        place: ABSOLUTE,
        value,
        size: 0,
    })
}

fn section(
    alloc: Global,
    class: Class,
    align: u64,
    size: u64,
    relocations: RelaList,
) -> Result<Section, NoMemory> {
    let bytes = match class {
        Class::Zero => Bytes::new(alloc),
        _ => zeros(alloc, size)?,
    };
    Ok(Section {
        name: Text::from_slice(alloc, b".s")?,
        class,
        align,
        size,
        bytes,
        relocations,
    })
}

// An object of these sections, with the entry and a symbol of this value.
fn object(alloc: Global, sections: SectionList, value: u64) -> Result<Object, NoMemory> {
    let mut symbols = SymbolList::new(alloc);
    symbols.push(symbol(alloc, b"_start", 0)?)?;
    symbols.push(symbol(alloc, b"s", value)?)?;
    Ok(Object {
        sections,
        symbols,
        notes: None,
    })
}
