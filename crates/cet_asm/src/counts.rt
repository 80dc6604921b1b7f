//! What is counted of the statements of a text: names, relocations and notes.
ghost use Rattle.std.specs.Prelude.{◌≡◌, ◌≢◌, ℕ, ◌+◌, ◌≤◌, List, [], ◌∷◌, ◌++◌, None, Some, IfErr, OnOk, length, map, ◌&&◌, ◌||◌, nat_lt, nat_le};
ghost use Rattle.std.specs.Option.{option_map};
ghost use Rattle.cet_asm.specs.declared.error.AsmKind.TheVariants as kinds;
ghost use Rattle.cet_asm.specs.Names.{place_at, count_of};
ghost use Rattle.cet_asm.specs.Placing.{is_note as is_note_of, short_names, MeetsNames, DefinesMark, IsFresh, IsTaken, Admits, Refuses, IsCounted};

use crate::error::AsmKind;
use crate::names::{Names, Target};
use crate::placed::Step;
use crate::usage::Use;
use cet_base::NoMemory;
use cet_syntax::{Code, Directive, Statement};
use std::alloc::Global;

/// The most names of a text: an object has 65,536 symbols at most, with the one that stands for entry 0.
pub(crate) const NAME_LIMIT: usize = 65_535;

/// The most relocations of an object.
pub(crate) const RELOCATION_LIMIT: usize = 1_000_000;

// Whether the step is a note.
fn is_note(step: &Step<'_>) -> bool
    ensures { result ≡ is_note_of step.now }
{
    match step {
        Step::States(Statement::Directive(Directive::Note(_))) => true,
        _ => false,
    }
}

// Whether it is a note and one came before.
fn is_second_note(noted: bool, step: &Step<'_>) -> bool
    ensures { result ≡ (noted && is_note_of step.now) }
{
    noted && is_note(step)
}

// Whether a note has come by then.
fn is_noted(noted: bool, step: &Step<'_>) -> bool
    ensures { result ≡ (noted || is_note_of step.now) }
{
    noted || is_note(step)
}

// Whether so many names, and so many uses more, keep the limits of an object.
fn keeps_limits(names: usize, relocations: usize, uses: usize) -> bool
    requires { relocations ≤ 1000000 }
    ensures limits { result ≡ (nat_lt names 65536 && nat_le (relocations + uses) 1000000) }
{
    names <= NAME_LIMIT && uses <= RELOCATION_LIMIT - relocations
}

// Gives a name its place. Twice where it has one.
fn define<'a>(names: &mut Names<'a>, mark: Option<(&'a [u8], Target)>) -> Result<(), AsmKind>
    ensures ok { OnOk result (DefinesMark names.old names.new (option_map (λ m. (m.0.now, m.1)) mark.entry)) }
    ensures fresh { OnOk result (IsFresh names.old (option_map (λ m. (m.0.now, m.1)) mark.entry)) }
    ensures taken { IfErr result (λ kind. kind ≢ kinds.NoMemory → (kind ≡ kinds.Twice) × IsTaken names.old (option_map (λ m. (m.0.now, m.1)) mark.entry)) }
{
    let Some((name, target)) = mark else {
        return Ok(());
    };
    if names.place(name).is_some() {
        return Err(AsmKind::Twice);
    }
    names.define(name, target)?;
    Ok(())
}

// Meets the target of a short branch.
fn meet_short<'a>(names: &mut Names<'a>, step: &Step<'a>) -> Result<(), NoMemory>
    ensures { OnOk result (MeetsNames names.old names.new (short_names step.now)) }
{
    if let Step::States(Statement::Code(Code::Short(_, name))) = step {
        names.meet(name.as_bytes())?;
    }
    Ok(())
}

// Meets the names of uses.
fn meet_uses<'a>(names: &mut Names<'a>, uses: &[Use<'a>]) -> Result<(), NoMemory>
    ensures { OnOk result (MeetsNames names.old names.new (map (λ u. u.name) uses.now)) }
{
    for field in uses {
        names.meet(field.name.as_bytes())?;
    }
    Ok(())
}

/// What was counted of the statements so far.
#[derive(Drop)]
pub(crate) struct Counts<'a> {
    names: Names<'a>,
    relocations: usize,
    noted: bool,
}

impl<'a> Counts<'a> {
    /// Before the first statement.
    pub(crate) fn new(alloc: Global) -> Counts<'a>
        ensures { IsCounted [] result }
    {
        Counts {
            names: Names::new(alloc),
            relocations: 0,
            noted: false,
        }
    }

    /// Where the name is defined.
    pub(crate) fn target(&self, name: &'a [u8]) -> Option<Target>
        ensures { result ≡ place_at self.now.names name.now }
    {
        self.names.place(name)
    }

    /// Counts a statement: what it defines, the names that it uses, and its uses. Twice or TooMany where it may not come.
    pub(crate) fn admit(
        &mut self,
        step: &Step<'a>,
        mark: Option<(&'a [u8], Target)>,
        uses: &[Use<'a>],
    ) -> Result<(), AsmKind>
        requires { self.old.relocations ≤ 1000000 }
        ensures ok { OnOk result (Admits self.old self.new step.now (option_map (λ m. (m.0.now, m.1)) mark.entry) uses.now) }
        ensures fault { IfErr result (λ kind. kind ≢ kinds.NoMemory → Refuses self.old kind step.now (option_map (λ m. (m.0.now, m.1)) mark.entry) uses.now) }
    {
        let is_second = is_second_note(self.noted, step);
        let noted = is_noted(self.noted, step);
        let relocations = self.relocations;
        define(&mut self.names, mark)?;
        if is_second {
            return Err(AsmKind::Twice);
        }
        meet_short(&mut self.names, step)?;
        meet_uses(&mut self.names, uses)?;
        if !keeps_limits(self.names.count(), relocations, uses.len()) {
            return Err(AsmKind::TooMany);
        }
        self.relocations = relocations + uses.len();
        self.noted = noted;
        Ok(())
    }
}
