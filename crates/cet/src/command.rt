//! The command that the words ask for.

ghost use Rattle.std.specs.Prelude.{◌≡◌, ◌<◌, ◌^◌, ℕ, List, Some, slice_get, length, map, codes, IfOk, IfErr};
ghost use Rattle.cet_base.specs.Sink.{Gains, GainsPart};
ghost use Rattle.cet.specs.Command.{Asks, AreRefused, texts};
ghost use Rattle.cet.specs.Named.{named};
ghost use Rattle.cet_verbs.specs.Command.{RunsNothing};
ghost use Rattle.cet_verbs.specs.Answer.{IsReport, LeavesWith};
ghost use Rattle.cet_verbs.specs.Refused.{HasCause, IsBeforeRun, LeavesRefused};
ghost use Rattle.cet_verbs.specs.Watchers.{AreWatchersOf};

use crate::found::{NoCommand, find, is_given, plain_number, value, values};
use crate::words::{
    asm_command, check_command, dis_command, link_command, notes_command, run_command,
};
use cet_base::{Files, Sink};
use cet_choosers::{Chooser, Watcher};
use cet_verbs::Refusal;
use cet_verbs::asm::asm;
use cet_verbs::check_raw::check_raw;
use cet_verbs::dis::dis;
use cet_verbs::link::{LinkRequest, link};
use cet_verbs::notes::notes;
use cet_verbs::run::{RunRequest, run};
use std::alloc::Global;

/// A command, with the words that name its files.
#[derive(Drop)]
pub enum Command<'a> {
    /// `check --raw FILE`.
    CheckRaw(&'a str),
    /// `asm --out FILE FILE`: the file to be written, and the file to be read.
    Asm(&'a str, &'a str),
    /// `dis FILE`.
    Dis(&'a str),
    /// `notes FILE...`.
    Notes(Vec<&'a str>),
    /// `run`, with its options and its file.
    Run(RunRequest<'a>),
    /// `link`, with its options and its files.
    Link(LinkRequest<'a>),
}

/// The most words that are read, with the verb.
const MOST_WORDS: usize = 0xffff_ffff;

// `check --raw FILE`.
#[tactic(auto, using(crate::proofs::Asked::none_but_check))]
fn read_check<'a>(alloc: Global, words: &'a [String]) -> Result<Command<'a>, NoCommand>
    requires few { length words.now < 2 ^ 32 }
    requires verb { slice_get (texts words.now) 0 ≡ Some (codes "check") }
    ensures found { IfOk result (λ command. Asks (texts words.now) (named command)) }
    ensures refused { IfErr result (λ why. why ≡ NoCommand.Refused → AreRefused (texts words.now)) }
{
    let found = find(check_command(alloc)?, words)?;
    match value(&found, "file") {
        Some(file) if is_given(&found, "raw") => Ok(Command::CheckRaw(file)),
        _ => Err(NoCommand::Refused),
    }
}

// `asm --out FILE FILE`.
#[tactic(auto, using(crate::proofs::Asked::none_but_asm))]
fn read_asm<'a>(alloc: Global, words: &'a [String]) -> Result<Command<'a>, NoCommand>
    requires few { length words.now < 2 ^ 32 }
    requires verb { slice_get (texts words.now) 0 ≡ Some (codes "asm") }
    ensures found { IfOk result (λ command. Asks (texts words.now) (named command)) }
    ensures refused { IfErr result (λ why. why ≡ NoCommand.Refused → AreRefused (texts words.now)) }
{
    let found = find(asm_command(alloc)?, words)?;
    match (value(&found, "out"), value(&found, "file")) {
        (Some(out), Some(file)) => Ok(Command::Asm(out, file)),
        _ => Err(NoCommand::Refused),
    }
}

// `dis FILE`.
#[tactic(auto, using(crate::proofs::Asked::none_but_dis))]
fn read_dis<'a>(alloc: Global, words: &'a [String]) -> Result<Command<'a>, NoCommand>
    requires few { length words.now < 2 ^ 32 }
    requires verb { slice_get (texts words.now) 0 ≡ Some (codes "dis") }
    ensures found { IfOk result (λ command. Asks (texts words.now) (named command)) }
    ensures refused { IfErr result (λ why. why ≡ NoCommand.Refused → AreRefused (texts words.now)) }
{
    let found = find(dis_command(alloc)?, words)?;
    match value(&found, "file") {
        Some(file) => Ok(Command::Dis(file)),
        None => Err(NoCommand::Refused),
    }
}

// `notes FILE...`.
#[tactic(auto, using(crate::proofs::Asked::none_but_notes))]
fn read_notes<'a>(alloc: Global, words: &'a [String]) -> Result<Command<'a>, NoCommand>
    requires few { length words.now < 2 ^ 32 }
    requires verb { slice_get (texts words.now) 0 ≡ Some (codes "notes") }
    ensures found { IfOk result (λ command. Asks (texts words.now) (named command)) }
    ensures refused { IfErr result (λ why. why ≡ NoCommand.Refused → AreRefused (texts words.now)) }
{
    let found = find(notes_command(alloc)?, words)?;
    Ok(Command::Notes(values(alloc, &found, "files")?))
}

// `run [--raw] [--schedule FILE] [--input FILE] [--limit N] FILE`.
#[tactic(auto, using(crate::proofs::Asked::none_but_run))]
fn read_run<'a>(alloc: Global, words: &'a [String]) -> Result<Command<'a>, NoCommand>
    requires few { length words.now < 2 ^ 32 }
    requires verb { slice_get (texts words.now) 0 ≡ Some (codes "run") }
    ensures found { IfOk result (λ command. Asks (texts words.now) (named command)) }
    ensures refused { IfErr result (λ why. why ≡ NoCommand.Refused → AreRefused (texts words.now)) }
{
    let found = find(run_command(alloc)?, words)?;
    let Some(file) = value(&found, "file") else {
        return Err(NoCommand::Refused);
    };
    let Some(limit) = plain_number(&found, "limit") else {
        return Err(NoCommand::Refused);
    };
    Ok(Command::Run(RunRequest {
        raw: is_given(&found, "raw"),
        schedule: value(&found, "schedule"),
        input: value(&found, "input"),
        limit,
        file,
    }))
}

// `link --out FILE [--entry NAME] FILE...`.
#[tactic(auto, using(crate::proofs::Asked::none_but_link))]
fn read_link<'a>(alloc: Global, words: &'a [String]) -> Result<Command<'a>, NoCommand>
    requires few { length words.now < 2 ^ 32 }
    requires verb { slice_get (texts words.now) 0 ≡ Some (codes "link") }
    ensures found { IfOk result (λ command. Asks (texts words.now) (named command)) }
    ensures refused { IfErr result (λ why. why ≡ NoCommand.Refused → AreRefused (texts words.now)) }
{
    let found = find(link_command(alloc)?, words)?;
    match (value(&found, "out"), value(&found, "entry")) {
        (Some(to), Some(start)) => Ok(Command::Link(LinkRequest {
            to,
            start,
            files: values(alloc, &found, "files")?,
        })),
        _ => Err(NoCommand::Refused),
    }
}

impl<'a> Command<'a> {
    /// The command of these words, the verb first.
    #[tactic(auto, using(crate::proofs::Asked::no_words, crate::proofs::Asked::no_verb, crate::proofs::Asked::too_many))]
    pub fn read(alloc: Global, words: &'a [String]) -> Result<Command<'a>, NoCommand>
        ensures found { IfOk result (λ command. Asks (texts words.now) (named command)) }
        ensures refused { IfErr result (λ why. why ≡ NoCommand.Refused → AreRefused (texts words.now)) }
    {
        let Some(verb) = words.first() else {
            return Err(NoCommand::Refused);
        };
        if words.len() > MOST_WORDS {
            return Err(NoCommand::Refused);
        }
        match verb.as_str() {
            "check" => read_check(alloc, words),
            "asm" => read_asm(alloc, words),
            "dis" => read_dis(alloc, words),
            "notes" => read_notes(alloc, words),
            "run" => read_run(alloc, words),
            "link" => read_link(alloc, words),
            _ => Err(NoCommand::Refused),
        }
    }

    /// Carries the command out: its report goes to the output. Choosers and watchers are those of a run.
    pub fn run<F: Files, O: Sink, C: Chooser, W: Watcher>(
        self,
        alloc: Global,
        files: &mut F,
        out: &mut O,
        choosers: Vec<C>,
        watchers: &mut Vec<W>,
    ) -> Result<u8, Refusal<'a>>
        ensures left { IfOk result (λ status. LeavesWith status (F.contents files.old) (F.contents files.new) (named self.entry)) }
        ensures left_refused { IfErr result (LeavesRefused (F.contents files.old) (F.contents files.new)) }
        ensures reported { IfOk result (λ status. (text : List ℕ) × Gains (O.bytes out.old) (O.bytes out.new) text
            × IsReport (F.contents files.old) (map C.plan choosers.items) (named self.entry) status text) }
        ensures watched { IfOk result (λ status. AreWatchersOf (F.contents files.old) (map C.plan choosers.items) (named self.entry)
            (Gains (O.bytes out.old) (O.bytes out.new)) W.seen watchers.old.items watchers.new.items) }
        ensures watched_cut_off { IfErr result (λ refusal. refusal ≡ Refusal.Unwritten → AreWatchersOf (F.contents files.old) (map C.plan choosers.items) (named self.entry)
            (GainsPart (O.bytes out.old) (O.bytes out.new)) W.seen watchers.old.items watchers.new.items) }
        ensures watchers_stay { IfErr result (λ refusal. IsBeforeRun refusal → watchers.new.items ≡ watchers.old.items) }
        ensures watchers_unused { RunsNothing (named self.entry) → watchers.new.items ≡ watchers.old.items }
        ensures refused { IfErr result (HasCause (record {
          files = F.contents files.old;
          plans = map C.plan choosers.items;
          faults_before = F.faults files.old;
          faults_after = F.faults files.new;
          out_before = O.bytes out.old;
          out_after = O.bytes out.new;
          out_faults_before = O.faults out.old;
          out_faults_after = O.faults out.new;
        }) (named self.entry)) }
    {
        match self {
            Command::CheckRaw(file) => check_raw(alloc, file, files, out),
            Command::Asm(to, file) => asm(alloc, to, file, files),
            Command::Dis(file) => dis(alloc, file, files, out),
            Command::Notes(names) => notes(alloc, &names, files, out),
            Command::Run(request) => run(alloc, request, files, out, choosers, watchers),
            Command::Link(request) => link(alloc, request, files, out),
        }
    }
}
