//! The object of a text whose statements have their places.
ghost use Rattle.std.specs.Prelude.{◌≡◌, ◌≢◌, ℕ, ◌==◌, ◌||◌, not, List, ◌++◌, ◌∷◌, [], IfOk, IfErr, OnOk, if◌then◌else◌};
ghost use Rattle.std.specs.List.{list_any};
ghost use Rattle.std.specs.Option.{option_to_list};
ghost use Rattle.cet_elf.specs.Regular.{IsRegular};
ghost use Rattle.cet_note.specs.Form.{written};
ghost use Rattle.cet_syntax.specs.declared.statement.SectionName.{SectionName as SectionOf};
ghost use Rattle.cet_asm.specs.declared.error.AsmKind.TheVariants as fault;
ghost use Rattle.cet_asm.specs.Tables.{number_at, targets_at};
ghost use Rattle.cet_asm.specs.Assembled.{HasLine, same_section as same_section_of, is_kept, definitions as definitions_of, targets_in, section_number, symbols as symbols_of, symbol_number, note_words as note_words_of, note_bits as note_bits_of, note_bytes, object_of, whole as whole_of};
ghost use Rattle.cet_asm.specs.Placing.{AreSizes, size_in};
ghost use Rattle.cet_asm.specs.Whole.{section_by, number_by, is_kept_in, kept_number, first_note, sections_by, step_words};

use crate::cursor::{Sizes, same_section};
use crate::definition::{Definition, definitions};
use crate::error::{AsmError, AsmKind};
use crate::kept::Kept;
use crate::late::first_late;
use crate::names_used::{globals, used_names};
use crate::placed::{Placed, Step};
use crate::regular::is_regular;
use crate::section::section;
use crate::symbols::Symbols;
use crate::table::Table;
use crate::targets::Targets;
use cet_base::{Bytes, Items, NoMemory};
use cet_elf::{Bind, Object, SectionList};
use cet_note::{Props, write_note};
use cet_syntax::{Directive, NoteWords, SectionName, Statement};
use std::alloc::Global;

/// The most bytes that the sections of an object store together.
const STORED_LIMIT: u64 = 1 << 30;

/// How many bytes the sections have, and which of them the object has.
#[derive(Clone, Copy, Debug, PartialEq, Eq)]
struct Layout {
    sizes: Sizes,
    kept: Kept,
}

// Whether the bytes that are stored are not too many.
fn has_room(sizes: Sizes) -> bool {
    sizes.text <= STORED_LIMIT
        && sizes.rodata <= STORED_LIMIT - sizes.text
        && sizes.data <= STORED_LIMIT - sizes.text - sizes.rodata
}

// Whether a symbol is defined in the section.
fn defines(defined: &[Definition<'_>], section: SectionName) -> bool
    ensures { result ≡ list_any (λ d. same_section_of d.section section) defined.now }
{
    defined.iter().any(|d| same_section(d.section, section))
}

// Whether a section of this size is kept, besides .text.
fn keeps(section: SectionName, size: u64, defined: &[Definition<'_>]) -> bool
    ensures { result ≡ (not (size == 0) || list_any (λ d. same_section_of d.section section) defined.now) }
{
    if size != 0 {
        true
    } else {
        defines(defined, section)
    }
}

// Which sections an object of these statements has.
fn kept_of(placed: &[Placed<'_>], sizes: Sizes, defined: &[Definition<'_>]) -> Kept
    requires sizes { AreSizes sizes placed.now }
    requires defined { defined.now ≡ definitions_of placed.now }
    ensures { (section : SectionOf) → is_kept_in result section ≡ is_kept placed.now section }
{
    Kept {
        rodata: keeps(SectionName::Rodata, sizes.rodata, defined),
        data: keeps(SectionName::Data, sizes.data, defined),
        bss: keeps(SectionName::Bss, sizes.bss, defined),
    }
}

// Adds a section, where the object has it.
fn push_section<'a>(
    alloc: Global,
    list: &mut SectionList,
    name: SectionName,
    layout: Layout,
    targets: &Targets<'a>,
    numbers: &Table<'a>,
    placed: &[Placed<'a>],
) -> Result<(), NoMemory>
    ensures { OnOk result (list.new ≡ list.old ++ (if is_kept_in layout.kept name then section_by (number_by (number_at numbers.now)) (targets_at targets.now) placed.now name (size_in layout.sizes name) ∷ [] else [])) }
{
    if layout.kept.has(name) {
        list.push(section(alloc, name, layout.sizes.of(name), targets, numbers, placed)?)?;
    }
    Ok(())
}

fn sections<'a>(
    alloc: Global,
    layout: Layout,
    targets: &Targets<'a>,
    numbers: &Table<'a>,
    placed: &[Placed<'a>],
) -> Result<SectionList, NoMemory>
    ensures { IfOk result (λ list. list ≡ sections_by (is_kept_in layout.kept) (λ name. section_by (number_by (number_at numbers.now)) (targets_at targets.now) placed.now name (size_in layout.sizes name))) }
{
    let mut list = Items::new(alloc);
    push_section(
        alloc,
        &mut list,
        SectionName::Text,
        layout,
        targets,
        numbers,
        placed,
    )?;
    push_section(
        alloc,
        &mut list,
        SectionName::Rodata,
        layout,
        targets,
        numbers,
        placed,
    )?;
    push_section(
        alloc,
        &mut list,
        SectionName::Data,
        layout,
        targets,
        numbers,
        placed,
    )?;
    push_section(
        alloc,
        &mut list,
        SectionName::Bss,
        layout,
        targets,
        numbers,
        placed,
    )?;
    Ok(list)
}

// The symbols: entry 0, the locals, the globals, then the undefined names.
fn symbols<'a>(
    alloc: Global,
    placed: &[Placed<'a>],
    defined: &[Definition<'a>],
    kept: Kept,
) -> Result<Symbols<'a>, NoMemory>
    requires defined { defined.now ≡ definitions_of placed.now }
    requires kept { (section : SectionOf) → kept_number kept section ≡ section_number placed.now section }
    ensures list { IfOk result (λ s. s.list ≡ symbols_of placed.now) }
    ensures numbers { IfOk result (λ s. (name : List ℕ) → number_by (number_at s.numbers) name ≡ symbol_number placed.now name) }
{
    let globals = globals(alloc, placed)?;
    let mut symbols = Symbols::new(alloc)?;
    symbols.define_all(alloc, defined, &globals, Bind::Local, kept)?;
    symbols.define_all(alloc, defined, &globals, Bind::Global, kept)?;
    let used = used_names(alloc, placed)?;
    symbols.mention_all(alloc, used.as_slice())?;
    Ok(symbols)
}

// The words of a statement that is a note.
fn words_of(step: &Step<'_>) -> Option<NoteWords>
    ensures { option_to_list result ≡ step_words step.now }
{
    match step {
        Step::States(Statement::Directive(Directive::Note(words))) => Some(*words),
        _ => None,
    }
}

// The words of the first note.
fn note_words(placed: &[Placed<'_>]) -> Option<NoteWords>
    ensures { result ≡ first_note (note_words_of placed.now) }
{
    for p in placed {
        if let Some(words) = words_of(&p.step) {
            return Some(words);
        }
    }
    None
}

/// GNU_PROPERTY_X86_FEATURE_1_AND (psABI, "Program Property").
const FEATURE_1_AND: u32 = 0xc000_0002;

fn note_bits(words: NoteWords) -> u32
    ensures { result ≡ note_bits_of words }
{
    u32::from(words.ibt) + 2 * u32::from(words.shstk)
}

// The bytes of the note.
fn note(alloc: Global, words: NoteWords) -> Result<Bytes, NoMemory>
    ensures { IfOk result (λ bytes. bytes ≡ written ((0xc0000002, note_bits_of words) ∷ [])) }
{
    let mut props = Props::new(alloc);
    props.set(FEATURE_1_AND, note_bits(words))?;
    let bytes = write_note(alloc, &props)?;
    Items::from_slice(alloc, &bytes)
}

fn notes(alloc: Global, placed: &[Placed<'_>]) -> Result<Option<Bytes>, NoMemory>
    ensures { IfOk result (λ notes. notes ≡ note_bytes (note_words_of placed.now)) }
{
    match note_words(placed) {
        Some(words) => Ok(Some(note(alloc, words)?)),
        None => Ok(None),
    }
}

// The object of statements without a late fault.
fn assembled<'a>(
    alloc: Global,
    placed: &[Placed<'a>],
    sizes: Sizes,
    defined: &[Definition<'a>],
    targets: &Targets<'a>,
) -> Result<Object, NoMemory>
    requires sizes { AreSizes sizes placed.now }
    requires defined { defined.now ≡ definitions_of placed.now }
    requires targets { targets_at targets.now ≡ targets_in (definitions_of placed.now) }
    ensures { IfOk result (λ object. object ≡ object_of placed.now) }
{
    if !has_room(sizes) {
        return Err(NoMemory);
    }
    let kept = kept_of(placed, sizes, defined);
    let layout = Layout { sizes, kept };
    let symbols = symbols(alloc, placed, defined, kept)?;
    let sections = sections(alloc, layout, targets, &symbols.numbers, placed)?;
    let notes = notes(alloc, placed)?;
    let Symbols { list, .. } = symbols;
    Ok(Object {
        sections,
        symbols: list,
        notes,
    })
}

// The same object, where it can be written.
fn regular(object: Object) -> Result<Object, NoMemory>
    ensures same { IfOk result (λ same. same ≡ object) }
    ensures regular { IfOk result IsRegular }
{
    if is_regular(&object) {
        Ok(object)
    } else {
        Err(NoMemory)
    }
}

// The object, or the first late fault.
fn whole<'a>(
    alloc: Global,
    placed: &[Placed<'a>],
    sizes: Sizes,
) -> Result<Result<Object, AsmError>, NoMemory>
    requires { AreSizes sizes placed.now }
    ensures answer { IfOk result (λ answer. whole_of placed.now ≡ answer) }
    ensures late { IfOk result (λ answer. IfErr answer (λ e. e.kind ≢ fault.NoMemory)) }
    ensures regular { IfOk result (λ answer. IfOk answer IsRegular) }
{
    let defined = definitions(alloc, placed)?;
    let targets = Targets::of(alloc, &defined)?;
    match first_late(&targets, placed) {
        Some(fault) => Ok(Err(fault)),
        None => {
            let object = regular(assembled(alloc, placed, sizes, &defined, &targets)?)?;
            Ok(Ok(object))
        }
    }
}

/// The object of statements in their places, or the first fault that shows when all are known. The time it takes grows with the number
/// of statements and bytes. Above 1 GiB of bytes it answers want of memory.
pub(crate) fn object(alloc: Global, placed: &[Placed<'_>], sizes: Sizes) -> Result<Object, AsmError>
    requires { AreSizes sizes placed.now }
    ensures object { IfOk result (λ object. whole_of placed.now ≡ Ok object) }
    ensures fault { IfErr result (λ e. e.kind ≢ fault.NoMemory → whole_of placed.now ≡ Err e) }
    ensures memory { IfErr result HasLine }
    ensures regular { IfOk result IsRegular }
{
    match whole(alloc, placed, sizes) {
        Ok(answer) => answer,
        Err(NoMemory) => Err(AsmError {
            line: 0,
            kind: AsmKind::NoMemory,
        }),
    }
}
