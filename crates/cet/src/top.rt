//! All that the program does, over any files and outputs.

ghost use Rattle.std.specs.Prelude.{◌≡◌, ◌≢◌, ◌≤◌, ◌<◌, ◌⊎◌, ℕ, List, [], map, Some};
ghost use Rattle.cet_base.specs.Faults.{Rose};
ghost use Rattle.cet_base.specs.Files.{Contents, FileMeets};
ghost use Rattle.cet_base.specs.Sink.{Gains, GainsPart};
ghost use Rattle.cet_rules.specs.declared.verdict.Verdict.TheVariants.{Accepted};
ghost use Rattle.cet_rules.specs.Report.{report};
ghost use Rattle.cet_verbs.specs.Command.{Command, CheckRaw, Link, RunsNothing};
ghost use Rattle.cet_verbs.specs.Text.{file_line};
ghost use Rattle.cet_verbs.specs.declared.refusal.Unfit.{Unfit};
ghost use Rattle.cet_verbs.specs.Unfit.{bad_line, IsUnfitFor};
ghost use Rattle.cet_verbs.specs.Steps.{step_of, ComesTo};
ghost use Rattle.cet_verbs.specs.Refused.{IsUnread, IsUnreplaced};
ghost use Rattle.cet_verbs.specs.Answer.{IsReport, IsAnswer, AreThere, GainsOrFails, Leaves, ClaimsWhatAllClaim};
ghost use Rattle.cet_verbs.specs.Watchers.{AreWatchersOf};
ghost use Rattle.cet.specs.Command.{Asks, AreRefused, WithCommand, texts};
ghost use Rattle.cet.specs.Text.{words_line};
ghost use Rattle.cet.specs.Certified.{IsCertified};

use crate::command::Command as Request;
use crate::found::NoCommand;
use cet_base::{Files, Sink};
use cet_choosers::{Chooser, Watcher};
use cet_sound::soundness;
use cet_verbs::{say, status};
use std::alloc::Global;

/// Carries out the command of the words, the verb first, and answers the status. `asm --out OUT FILE` makes the file OUT the object of an assembly
/// text; `check --raw FILE` certifies raw code; `dis FILE` lists raw code; `notes FILE...` prints the property note of each file and what a link of
/// them may claim; `run` runs raw code or an executable, by a schedule and on an input, if they are given, and prints how the run ends;
/// `link --out OUT FILE...` makes the file OUT the static executable of the objects, which starts at `_start` or at the symbol after `--entry`.
///
/// `run` applies the events of the schedule, and then what the choosers answer. A chooser that answers `None` is dropped, and the next one takes over;
/// where none is left, or the limit of events is reached, the run stops. After each event each watcher sees it and what it came to, in order; those that
/// have seen enough are dropped, and the others stay in `watchers`. A chooser may tell the plan that it follows, and a watcher what it has seen: the
/// contract speaks of those that do, and of a run whatever they are.
///
/// Statuses: 0 done, or accepted; 1 a rule is broken, the objects cannot be linked, or the process that was run ended by a fault or with a status other than 0; 2 the words are no
/// command; 3 a file could not be read or replaced; 4 no memory; 5 the output failed; 6 a file is not of its form or over its limit. It may be 4 in
/// place of any answer.
///
/// How the contract reads. `Gains old new text`: the output took the whole text and nothing else. `GainsPart old new text`: it took some first
/// part of it, which may be empty or the whole. `GainsOrFails`: the whole, or a first part where its count of faults rose. `Rose old new`: that
/// count rose in this call. `WithCommand words P`: the words ask for a command, and P holds of it. `ComesTo files command step`: every earlier
/// step of the command passed. `FileMeets files name P`: the file of this name exists, and P holds of its bytes. `Replaces old new name bytes`: the
/// file of this name now holds these bytes, and no other changed. `AreWatchersOf files plans command Told seen old new`: the command was a run whose
/// text was told so, and these watchers are left of it; or it runs nothing, and they are as before. `RunsNothing command`: it is not `run`. `plan c` is
/// what the chooser tells of its plan, and `seen w` what the watcher tells that it has seen. Where the files or an output do not tell what they hold, `FileMeets`, `Replaces`
/// and the `Gains` of it say nothing, and no file `IsToldAbsent`.
pub fn top<F: Files, O: Sink, E: Sink>(
    alloc: Global,
    words: &[String],
    files: &mut F,
    out: &mut O,
    err: &mut E,
    choosers: Vec<Box<dyn Chooser>>,
    watchers: &mut Vec<Box<dyn Watcher>>,
) -> u8
    ensures statuses { result ≤ 6 }

    // 0 of `check --raw`: the output gained `accepted`, and the file's code keeps the rules: it is loaded, and for every input and every list of steps
    // and signals no process of it meets a control-protection fault.
    ensures accepted { (name : List ℕ) → Asks (texts words.now) (CheckRaw name) → result ≡ 0
        → Gains (O.bytes out.old) (O.bytes out.new) (report Accepted) × FileMeets (F.contents files.old) name IsCertified }
    // 0 and 1: the output gained the whole report of the command on what the files hold; with 1 it names the first broken rule, why the
    // objects cannot be linked, or the fault or the status by which the process ended. Where every chooser tells a plan, the report of a run is that
    // of the events that these plans choose.
    ensures reported { result < 2 → WithCommand (texts words.now) (λ command. (text : List ℕ)
        × Gains (O.bytes out.old) (O.bytes out.new) text × IsReport (F.contents files.old) (map (λ c. plan c) choosers.items) command result text) }

    // 0: `asm` has made the file after `--out` the object file of the text, and `link` the executable file of the objects; no other file changed, and
    // other commands change none.
    ensures replaced { result ≡ 0 → WithCommand (texts words.now) (Leaves (F.contents files.old) (F.contents files.new)) }

    // 0 of `link`: the executable claims IBT in its note exactly where the note of every input does, and SHSTK so too.
    ensures features { (out start : List ℕ) (names : List (List ℕ)) → Asks (texts words.now) (Link out start names) → result ≡ 0
        → ClaimsWhatAllClaim (F.contents files.old) (F.contents files.new) out names }

    // 2: only where the words are no command, and such words come to nothing else but 4; the line is `cet: words`.
    ensures words { result ≡ 2 → AreRefused (texts words.now) }
    ensures words_refused { AreRefused (texts words.now) → (result ≡ 2) ⊎ (result ≡ 4) }
    ensures words_said { result ≡ 2 → GainsOrFails (E.bytes err.old) (E.bytes err.new) (E.faults err.old) (E.faults err.new) words_line }

    // 3: only where a file to be read is known not to exist, or the files' count of faults rose in this call, at the read or at the replacement of
    // a file, which alone it then may have changed; the line is `cet: file NAME`.
    ensures unread { result ≡ 3 → WithCommand (texts words.now) (λ command. (name : List ℕ)
        × (IsUnread (F.contents files.old) (F.contents files.new) (F.faults files.old) (F.faults files.new) command name
        ⊎ IsUnreplaced (F.contents files.old) (F.contents files.new) (F.faults files.old) (F.faults files.new) command name)
        × GainsOrFails (E.bytes err.old) (E.bytes err.new) (E.faults err.old) (E.faults err.new) (file_line name)) }

    // 4: out of memory, which may come at any step before something is written: nothing is, as below.

    // 5: only where the output's count of faults rose; a first part was written of the report that would have come with 0 or 1.
    ensures unwritten { result ≡ 5 → Rose (O.faults out.old) (O.faults out.new) }
    ensures cut_off { result ≡ 5 → WithCommand (texts words.now) (λ command. (status : ℕ) × (text : List ℕ)
        × GainsPart (O.bytes out.old) (O.bytes out.new) text × IsReport (F.contents files.old) (map (λ c. plan c) choosers.items) command status text) }

    // 6: only where a file is malformed or too long for the command, found at the step that looks for it; the line is
    // `cet: bad NAME at N: WORD`, with the place and the reason.
    ensures unfit { result ≡ 6 → WithCommand (texts words.now) (λ command. (name : List ℕ) × (why : Unfit)
        × ComesTo (F.contents files.old) command (step_of why name) × FileMeets (F.contents files.old) name (IsUnfitFor command why)
        × GainsOrFails (E.bytes err.old) (E.bytes err.new) (E.faults err.old) (E.faults err.new) (bad_line name why)) }

    // With all but 0 and 3 no file changes. With 2, 3, 4 and 6 nothing goes to the output; with 0, 1, 4 and 5 nothing goes to standard error.
    ensures files_stay { result ≢ 0 → result ≢ 3 → F.contents files.new ≡ F.contents files.old }
    ensures output_silent { 2 ≤ result → result ≢ 5 → Gains (O.bytes out.old) (O.bytes out.new) [] }
    ensures error_silent { result ≢ 2 → result ≢ 3 → result ≢ 6 → Gains (E.bytes err.old) (E.bytes err.new) [] }

    // 0, 1 and 5: the watchers that go on have seen all events of the run that is reported, the last of them last, where each tells what it has
    // seen. Without a run, or one without an event, and with 2, 3 and 6, they are as before.
    ensures watched { result < 2 → WithCommand (texts words.now) (λ command. AreWatchersOf (F.contents files.old) (map (λ c. plan c) choosers.items) command
        (Gains (O.bytes out.old) (O.bytes out.new)) (λ w. seen w) watchers.old.items watchers.new.items) }
    ensures watched_cut_off { result ≡ 5 → WithCommand (texts words.now) (λ command. AreWatchersOf (F.contents files.old) (map (λ c. plan c) choosers.items) command
        (GainsPart (O.bytes out.old) (O.bytes out.new)) (λ w. seen w) watchers.old.items watchers.new.items) }
    ensures watchers_stay { 2 ≤ result → result ≢ 4 → result ≢ 5 → watchers.new.items ≡ watchers.old.items }
    ensures watchers_unused { (command : Command) → Asks (texts words.now) command → RunsNothing command → watchers.new.items ≡ watchers.old.items }

    // Where the files tell what they hold, each that the command reads exists and no count of faults rose, the status and both texts are the
    // answer that is defined, the report or 6 with its line, unless the status is 4.
    ensures complete { (held : Contents) (command : Command) → F.contents files.old ≡ Some held → Asks (texts words.now) command → AreThere held command
        → ¬ Rose (F.faults files.old) (F.faults files.new) → ¬ Rose (O.faults out.old) (O.faults out.new) → ¬ Rose (E.faults err.old) (E.faults err.new)
        → (result ≡ 4) ⊎ ((out_text err_text : List ℕ) × IsAnswer held (map (λ c. plan c) choosers.items) command result out_text err_text
        × Gains (O.bytes out.old) (O.bytes out.new) out_text × Gains (E.bytes err.old) (E.bytes err.new) err_text) }
{
    // The theorem that no process of code which keeps the rules dies by a control-protection fault; at run time it does nothing.
    soundness();
    let request = match Request::read(alloc, words) {
        Ok(request) => request,
        Err(NoCommand::NoMemory) => return status::NO_MEMORY,
        Err(NoCommand::Refused) => {
            say(err, b"cet: words\n");
            return status::WORDS;
        }
    };
    match request.run(alloc, files, out, choosers, watchers) {
        Ok(status) => status,
        Err(refusal) => refusal.tell(alloc, err),
    }
}
