//! Reading an object.

ghost use Rattle.std.specs.Prelude.{◌≡◌, ◌<◌, ◌++◌, All, IfOk, IfErr};
ghost use Rattle.cet_elf.specs.Consistent.{HasNoZero, IsConsistent};
ghost use Rattle.cet_elf.specs.Faults.{IsFirst, Reads};
ghost use Rattle.cet_elf.specs.Header.{section_count as count_of};
ghost use Rattle.cet_elf.specs.Sections.{section_names as section_names_of, HasSections};
ghost use Rattle.cet_elf.specs.Below.{first_below};
ghost use Rattle.cet_elf.specs.ObjectSections.{class_of as class_in, is_note};
ghost use Rattle.cet_elf.specs.ObjectSymbols.{symbols_faults};
ghost use Rattle.cet_elf.specs.ObjectRelocations.{relocations_of, relocations_faults};
ghost use Rattle.cet_elf.specs.ObjectFile.{section_of as section_in, sections_of, notes_of, object_faults, object_of, IsObjectFile};
ghost use Rattle.cet_elf.specs.Special.{IsSpecial};
ghost use Rattle.cet_elf.specs.Numbers.{AreRelocations};

use crate::entries::SectionHeader;
use crate::error::ElfError;
use crate::header::check_header;
use crate::names::Names;
use crate::object::{Class, Object, RelaList, Section, SectionList};
use crate::relocations::read_relocations;
use crate::room::Room;
use crate::sections::{check_sections, section, section_count, section_names, stored};
use crate::size::passes_limit;
use crate::support::{Special, check_support, is_group, is_kept, section_numbers};
use crate::symbols::read_symbols;
use cet_base::{Bytes, NoMemory};
use std::alloc::Global;
use std::mem;

// The e_type of objects, ET_REL.
const RELOCATABLE: u16 = 1;

// What a kept section is loaded as.
#[tactic(auto, unfolding(crate::specs::ObjectSections::class_of))]
fn class_of(s: SectionHeader) -> Class
    ensures { result ≡ class_in s }
{
    if is_group(s) {
        Class::Group
    } else if s.kind == 8 {
        Class::Zero
    } else if s.flags & 0x4 != 0 {
        Class::Code
    } else if s.flags & 0x1 != 0 {
        Class::Write
    } else {
        Class::Read
    }
}

// A section as a value, with its relocations.
#[tactic(auto, unfolding(crate::specs::ObjectFile::section_of))]
fn section_of(
    room: &mut Room,
    bytes: &[u8],
    names: Names,
    index: u32,
    relocations: RelaList,
) -> Result<Section, NoMemory>
    requires sections { HasSections bytes.now }
    requires names { names.table.now ≡ section_names_of bytes.now }
    requires there { index < count_of bytes.now }
    requires relocations { relocations ≡ relocations_of bytes.now index }
    ensures { IfOk result (λ s. s ≡ section_in bytes.now index) }
{
    let s = section(bytes, index);
    Ok(Section {
        name: room.copy(names.name(s.name))?,
        class: class_of(s),
        align: s.align.max(1),
        size: s.size,
        bytes: room.copy(stored(bytes, index))?,
        relocations,
    })
}

// The kept sections, each with its relocations out of `lists`.
#[tactic(auto, unfolding(crate::specs::ObjectFile::sections_of))]
fn read_sections(
    room: &mut Room,
    bytes: &[u8],
    mut lists: Vec<RelaList>,
) -> Result<SectionList, NoMemory>
    requires sections { HasSections bytes.now }
    requires lists { AreRelocations bytes.now (count_of bytes.now) lists.items }
    ensures { IfOk result (λ sections. sections ≡ sections_of bytes.now) }
{
    let names = Names::new(section_names(bytes));
    let mut sections = SectionList::new(room.alloc());
    for i in 0..section_count(bytes) {
        let relocations = mem::replace(&mut lists[i as usize], RelaList::new(room.alloc()));
        if is_kept(bytes, i) {
            sections.push(section_of(room, bytes, names, i, relocations)?)?;
        }
    }
    Ok(sections)
}

// The bytes of the note, where there is one.
#[tactic(auto, unfolding(crate::specs::ObjectFile::notes_of))]
fn read_note(room: &mut Room, bytes: &[u8], note: Option<u32>) -> Result<Option<Bytes>, NoMemory>
    requires sections { HasSections bytes.now }
    requires note { note ≡ first_below (count_of bytes.now) (is_note bytes.now) }
    ensures { IfOk result (λ found. found ≡ notes_of bytes.now) }
{
    let Some(index) = note else {
        return Ok(None);
    };
    Ok(Some(room.copy(stored(bytes, index))?))
}

// The object of a file whose header and sections have no fault.
#[tactic(auto, using(crate::proofs::FaultLemmas::checks), unfolding(crate::specs::ObjectFile::object_of, crate::specs::ObjectSymbols::symbols_of, crate::specs::ObjectSymbols::symbol_table))]
fn read_parts(alloc: Global, bytes: &[u8], found: Special) -> Result<Object, ElfError>
    requires sections { HasSections bytes.now }
    requires found { IsSpecial bytes.now (count_of bytes.now) found }
    ensures { Reads (λ o. o) result (symbols_faults bytes.now ++ relocations_faults bytes.now) (object_of bytes.now) }
{
    if passes_limit(bytes, found.symbols) {
        return Err(ElfError::NoMemory);
    }
    let mut room = Room::new(alloc);
    let numbers = section_numbers(alloc, bytes)?;
    let symbols = read_symbols(&mut room, bytes, &numbers, found.symbols)?;
    let relocations = read_relocations(alloc, bytes, &symbols.numbers)?;
    let sections = read_sections(&mut room, bytes, relocations)?;
    let notes = read_note(&mut room, bytes, found.note)?;
    Ok(Object {
        sections,
        symbols: symbols.list,
        notes,
    })
}

// The object that the bytes are, or the first fault.
#[tactic(auto, using(crate::proofs::FaultLemmas::checks), unfolding(crate::specs::ObjectFile::object_faults))]
fn read_whole(alloc: Global, bytes: &[u8]) -> Result<Object, ElfError>
    ensures { Reads (λ o. o) result (object_faults bytes.now) (object_of bytes.now) }
{
    check_header(bytes, RELOCATABLE)?;
    check_sections(bytes)?;
    let found = check_support(bytes)?;
    read_parts(alloc, bytes, found)
}

/// Reads a relocatable object (gABI, "Object Files"; psABI, "Object Files").
///
/// What is no object is refused with the first fault and the offset in the file of its field, in the order of
/// `object_faults`: the header, the places and names of all sections, sections of kinds that are not supported, symbols,
/// relocations. `NoMemory` may come at any time. It comes before memory is taken where the names and bytes of the object
/// would together pass 1 GiB, since a small file can name one part many times.
///
/// The time grows with the file and with what is given: whether a name ends is known from the place of the last zero byte
/// of its table, which is found once, and the numbers of sections and symbols are looked up in tables.
#[tactic(auto, using(crate::proofs::ConsistentObjects::consistent))]
pub fn read_object(alloc: Global, bytes: &[u8]) -> Result<Object, ElfError>
    // The bytes are the object.
    ensures object { IfOk result (λ o. IsObjectFile bytes.now o) }
    // What is refused is the first fault, unless memory ran out.
    ensures fault { IfErr result (λ e. IsFirst e (object_faults bytes.now)) }
    // The object keeps what a link editor asks of its inputs.
    ensures consistent { IfOk result (λ o. IsConsistent o) }
    // No name of a section holds a zero byte.
    ensures section_names { IfOk result (λ o. All (λ s. HasNoZero s.name) o.sections) }
{
    read_whole(alloc, bytes)
}
