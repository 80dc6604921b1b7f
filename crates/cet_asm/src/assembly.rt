//! The statements of a text, put in their places one by one.
ghost use Rattle.std.specs.Prelude.{◌≡◌, ◌≢◌, ℕ, ◌+◌, List, [], Ok, Err, IfOk, IfErr, OnOk, IsTrue, false};
ghost use Rattle.std.specs.Option.{option_map};
ghost use Rattle.cet_syntax.specs.Lines.{items_in};
ghost use Rattle.cet_asm.specs.declared.error.AsmKind.TheVariants as kinds;
ghost use Rattle.cet_asm.specs.Assembled.{first_state, on_line as on_line_of, step_of, placed_of, placed_from, spot_in, table_is_known, HasLine};
ghost use Rattle.cet_asm.specs.Placing.{AreSizes, IsAnswer, IsWritten, IsTable, IsKept, IsReading, IsPlacedNext, mark_of, state_of, statement_at, step_end, targets_of};

use crate::counts::Counts;
use crate::cursor::{Cursor, Sizes, same_section};
use crate::error::{AsmError, AsmKind};
use crate::extent::statement_end;
use crate::names::Target;
use crate::placed::{Placed, Step};
use crate::usage::Use;
use crate::uses::push_uses;
use cet_base::NoMemory;
use cet_syntax::{Directive, Item, Numbered, Statement, head, read_items, read_statement};
use std::alloc::Global;

// An item that was read: the offset behind it, and its uses.
#[derive(Drop)]
struct Reading<'a> {
    step: Step<'a>,
    end: u64,
    uses: Vec<Use<'a>>,
}

// The statement that is written so, where it may stand here.
fn read_body<'a>(cursor: &Cursor<'a>, bytes: &'a [u8]) -> Result<Statement<'a>, AsmKind>
    ensures answer { result ≡ statement_at (state_of cursor.now) bytes.now }
    ensures written { IfOk result IsWritten }
{
    let Some((keyword, rest)) = head(bytes) else {
        return Err(AsmKind::Word);
    };
    if !cursor.stands(keyword) {
        return Err(AsmKind::Word);
    }
    match read_statement(keyword, rest) {
        Ok(statement) => Ok(statement),
        Err(error) => Err(AsmKind::from(error)),
    }
}

// What the step defines, where it ends at `end`.
fn definition<'a>(cursor: &Cursor<'a>, step: &Step<'a>, end: u64) -> Option<(&'a [u8], Target)>
    requires { end ≡ step_end (state_of cursor.now) step.now }
    ensures { option_map (λ m. (m.0.now, m.1)) result ≡ mark_of (state_of cursor.now).section (spot_in (state_of cursor.now)).offset step.now }
{
    let section = cursor.section();
    match step {
        Step::Label(name) => Some((
            name.as_bytes(),
            Target {
                section,
                value: cursor.offset(),
                is_label: true,
            },
        )),
        Step::States(Statement::Directive(Directive::Func(name))) => Some((
            name.as_bytes(),
            Target {
                section,
                value: cursor.offset(),
                is_label: false,
            },
        )),
        Step::States(Statement::Directive(Directive::Object(name, size))) => Some((
            name.as_bytes(),
            Target {
                section,
                value: end - *size,
                is_label: false,
            },
        )),
        _ => None,
    }
}

/// The statements of a text in their places, and how many bytes they take.
#[derive(Drop)]
pub(crate) struct Placement<'a> {
    pub(crate) statements: Vec<Placed<'a>>,
    pub(crate) sizes: Sizes,
}

/// The statements in their places so far, and what is known of them.
#[derive(Drop)]
pub(crate) struct Assembly<'a> {
    alloc: Global,
    placed: Vec<Placed<'a>>,
    cursor: Cursor<'a>,
    counts: Counts<'a>,
}

impl<'a> Assembly<'a> {
    fn new(alloc: Global) -> Assembly<'a>
        ensures kept { IsKept result }
        ensures sized { AreSizes result.cursor.sizes result.placed.items }
        ensures none { result.placed.items ≡ [] }
        ensures state { state_of result.cursor ≡ first_state }
    {
        Assembly {
            alloc,
            placed: Vec::new(alloc),
            cursor: Cursor::new(),
            counts: Counts::new(alloc),
        }
    }

    // The value of the label that `.off` counts from: one before it, in the same section.
    fn table(&self, statement: &Statement<'a>) -> Result<u64, AsmKind>
        requires { IsKept self.now }
        ensures known { OnOk result (IsTrue (table_is_known self.now.placed.items (state_of self.now.cursor) statement.now)) }
        ensures value { IfOk result (IsTable (targets_of self.now) (state_of self.now.cursor).section statement.now) }
        ensures fault { IfErr result (λ kind. kind ≡ kinds.Operand) }
        ensures unknown { IfErr result (λ kind. table_is_known self.now.placed.items (state_of self.now.cursor) statement.now ≡ false) }
    {
        let Statement::Directive(Directive::Off { table, .. }) = statement else {
            return Ok(0);
        };
        match self.counts.target(table.as_bytes()) {
            Some(place) if place.is_label && same_section(place.section, self.cursor.section()) => {
                Ok(place.value)
            }
            _ => Err(AsmKind::Operand),
        }
    }

    // Reads an item that comes next.
    fn read(&self, item: Item<'a>) -> Result<Reading<'a>, AsmKind>
        requires { IsKept self.now }
        ensures ok { IfOk result (IsReading self.now item.entry) }
        ensures fault { IfErr result (λ kind. kind ≢ kinds.NoMemory → step_of self.now.placed.items (state_of self.now.cursor) item.entry ≡ Err kind) }
    {
        match item {
            Item::Label(name) => Ok(Reading {
                step: Step::Label(name),
                end: self.cursor.offset(),
                uses: Vec::new(self.alloc),
            }),
            Item::Body(piece) => {
                let statement = read_body(&self.cursor, piece.as_bytes())?;
                let table = self.table(&statement)?;
                let end = statement_end(self.alloc, self.cursor.offset(), &statement)?;
                let spot = self.cursor.spot();
                let mut uses = Vec::new(self.alloc);
                push_uses(self.alloc, &mut uses, table, &spot, &statement)?;
                Ok(Reading {
                    step: Step::States(statement),
                    end,
                    uses,
                })
            }
        }
    }

    // Puts the next item in its place.
    fn place(&mut self, line: u32, item: Item<'a>) -> Result<(), AsmKind>
        requires kept { IsKept self.old }
        requires sized { AreSizes self.old.cursor.sizes self.old.placed.items }
        ensures placed { OnOk result (IsPlacedNext self.old self.new (record { line = line; item = item.entry })) }
        ensures kept { OnOk result (IsKept self.new) }
        ensures sized { OnOk result (AreSizes self.new.cursor.sizes self.new.placed.items) }
        ensures fault { IfErr result (λ kind. kind ≢ kinds.NoMemory → placed_of self.old.placed.items (state_of self.old.cursor) (record { line = line; item = item.entry }) ≡ Err kind) }
    {
        let reading = self.read(item)?;
        let spot = self.cursor.spot();
        let mark = definition(&self.cursor, &reading.step, reading.end);
        if let Err(kind) = self.counts.admit(&reading.step, mark, &reading.uses) {
            return Err(kind);
        }
        self.cursor.step(&reading.step, reading.end);
        let Reading { step, .. } = reading;
        self.placed.push(Placed { line, step, spot })?;
        Ok(())
    }
}

// The fault on its line; want of memory has line 0.
fn on_line(line: u32, kind: AsmKind) -> AsmError
    ensures kind { result.kind ≡ kind }
    ensures line { kind ≢ kinds.NoMemory → result.line ≡ line }
    ensures memory { HasLine result }
{
    match kind {
        AsmKind::NoMemory => AsmError { line: 0, kind },
        _ => AsmError { line, kind },
    }
}

/// The statements of the text in their places, or the first fault of a statement.
pub(crate) fn place<'a>(alloc: Global, text: &'a [u8]) -> Result<Placement<'a>, AsmError>
    ensures placed { IfOk result (λ p. placed_from [] first_state (items_in text.now) ≡ Ok p.statements.items) }
    ensures sized { IfOk result (λ p. AreSizes p.sizes p.statements.items) }
    ensures fault { IfErr result (λ e. e.kind ≢ kinds.NoMemory → placed_from [] first_state (items_in text.now) ≡ Err e) }
    ensures memory { IfErr result HasLine }
{
    let mut assembly = Assembly::new(alloc);
    let items = match read_items(alloc, text) {
        Ok(items) => items,
        Err(NoMemory) => return Err(on_line(0, AsmKind::NoMemory)),
    };
    for numbered in items {
        let Numbered { line, item } = numbered;
        if let Err(kind) = assembly.place(line, item) {
            return Err(on_line(line, kind));
        }
    }
    let sizes = assembly.cursor.sizes();
    let Assembly { placed, .. } = assembly;
    Ok(Placement {
        statements: placed,
        sizes,
    })
}
