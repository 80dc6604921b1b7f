//! `run [--raw] [--schedule FILE] [--input FILE] [--limit N] FILE`: the run of a program.

ghost use Rattle.std.specs.Prelude.{◌≡◌, ◌≢◌, ◌≤◌, ℕ, List, [], Bool, true, false, length, map, Option, Some, IfOk, IfErr};
ghost use Rattle.cet_base.specs.declared.reading.TheConstants.{FILE_LIMIT};
ghost use Rattle.cet_base.specs.Files.{Contents, FileMeets};
ghost use Rattle.cet_base.specs.Sink.{Gains, GainsPart};
ghost use Rattle.cet_process.specs.Start.{start, load_error};
ghost use Rattle.cet_run.specs.Run.{AreWatched};
ghost use Rattle.cet_verbs.specs.Command.{Command, Run};
ghost use Rattle.cet_verbs.specs.Held.{HoldsBytes};
ghost use Rattle.cet_verbs.specs.Named.{word_of, run_of};
ghost use Rattle.cet_verbs.specs.Runs.{IsProgram, IsSchedule, HoldsOption, HoldsSchedule, IsRun, run_status as status_of_end};
ghost use Rattle.cet_verbs.specs.declared.refusal.Unfit.TheVariants.{NoSchedule};
ghost use Rattle.cet_verbs.specs.Unfit.{IsUnfitFor};
ghost use Rattle.cet_verbs.specs.Steps.{Schedule, Form};
ghost use Rattle.cet_verbs.specs.Answer.{IsReport};
ghost use Rattle.cet_verbs.specs.Refused.{HasCause, IsAtStep, IsAtOption, IsAtSchedule, IsBeforeRun, IsOfFiles};
ghost use Rattle.cet_verbs.specs.Watchers.{AreWatchersOf};

use crate::forms::{no_exec, no_image};
use crate::reading::read_file;
use crate::refusal::{Refusal, Unfit};
use crate::status;
use cet_base::{Files, NoMemory, Sink};
use cet_exec::read_exec;
use cet_image::{Image, image_of, raw_image};
use cet_kernel::{LoadError, Process, load};
use cet_run::{Chooser, Report, RunEnd, Watcher, run_with, write_run};
use cet_schedule::{EventList, ScheduleError, read_schedule};
use std::alloc::Global;

/// What `run` is asked for.
#[derive(Clone, Copy)]
pub struct RunRequest<'a> {
    /// The program is raw code, and no executable.
    pub raw: bool,
    /// The file of the schedule, if one is given.
    pub schedule: Option<&'a str>,
    /// The file of the input, if one is given.
    pub input: Option<&'a str>,
    /// How many events are applied at most, 1 to 1,000,000.
    pub limit: u32,
    /// The file of the program.
    pub file: &'a str,
}

/// The bytes of the files of a run: none of an option that is not given.
#[derive(Drop)]
struct Held {
    schedule: Vec<u8>,
    input: Vec<u8>,
    program: Vec<u8>,
}

// The bytes of the file of an option, or none where it is not given.
fn read_option<'a, F: Files>(
    alloc: Global,
    name: Option<&'a str>,
    files: &mut F,
) -> Result<Vec<u8>, Refusal<'a>>
    ensures contents { F.contents files.new ≡ F.contents files.old }
    ensures faults { F.faults files.old ≤ F.faults files.new }
    ensures held { IfOk result (λ bytes. HoldsOption (F.contents files.old) (word_of name.entry) bytes.items) }
    ensures refused { IfErr result (IsAtOption (F.contents files.old) (F.faults files.old) (F.faults files.new) (word_of name.entry)) }
{
    match name {
        Some(name) => read_file(alloc, name, files),
        None => Ok(Vec::new(alloc)),
    }
}

// The bytes of the files, which are read in this order.
fn read_files<'a, F: Files>(
    alloc: Global,
    request: RunRequest<'a>,
    files: &mut F,
) -> Result<Held, Refusal<'a>>
    ensures contents { F.contents files.new ≡ F.contents files.old }
    ensures faults { F.faults files.old ≤ F.faults files.new }
    ensures schedule { IfOk result (λ held. HoldsOption (F.contents files.old) (word_of request.entry.schedule) held.schedule.items) }
    ensures input { IfOk result (λ held. HoldsOption (F.contents files.old) (word_of request.entry.input) held.input.items) }
    ensures program { IfOk result (λ held. HoldsBytes (F.contents files.old) request.entry.file.now held.program.items) }
    ensures refused { IfErr result (IsOfFiles (F.contents files.old) (F.faults files.old) (F.faults files.new) (run_of request.entry)) }
{
    let schedule = read_option(alloc, request.schedule, files)?;
    let input = read_option(alloc, request.input, files)?;
    let program = read_file(alloc, request.file, files)?;
    Ok(Held {
        schedule,
        input,
        program,
    })
}

// The image of the raw code that the file `name` holds.
fn raw_program<'a>(alloc: Global, name: &'a str, bytes: &[u8]) -> Result<Image, Refusal<'a>>
    ensures image { IfOk result (IsProgram true bytes.now) }
    ensures refused { IfErr result (λ refusal. (told : Option Contents) (before after : ℕ) (schedule input : Option (List ℕ)) (limit : ℕ)
        → FileMeets told name.now (λ held. held ≡ bytes.now) → IsAtStep told before after (Run true schedule input limit name.now) (Form name.now) refusal) }
{
    match raw_image(alloc, bytes) {
        Ok(image) => Ok(image),
        Err(error) => Err(no_image(name, error)),
    }
}

// The image of the executable that the file `name` holds.
fn exec_program<'a>(alloc: Global, name: &'a str, bytes: &[u8]) -> Result<Image, Refusal<'a>>
    ensures image { IfOk result (IsProgram false bytes.now) }
    ensures refused { IfErr result (λ refusal. (told : Option Contents) (before after : ℕ) (schedule input : Option (List ℕ)) (limit : ℕ)
        → FileMeets told name.now (λ held. held ≡ bytes.now) → IsAtStep told before after (Run false schedule input limit name.now) (Form name.now) refusal) }
{
    let exec = match read_exec(alloc, bytes) {
        Ok(exec) => exec,
        Err(fault) => return Err(no_exec(name, fault)),
    };
    match image_of(alloc, &exec) {
        Ok(image) => Ok(image),
        Err(error) => Err(no_image(name, error)),
    }
}

// The image of the program that the file `name` holds.
fn read_program<'a>(
    alloc: Global,
    raw: bool,
    name: &'a str,
    bytes: &[u8],
) -> Result<Image, Refusal<'a>>
    ensures image { IfOk result (IsProgram raw bytes.now) }
    ensures refused { IfErr result (λ refusal. (told : Option Contents) (before after : ℕ) (schedule input : Option (List ℕ)) (limit : ℕ)
        → FileMeets told name.now (λ held. held ≡ bytes.now) → IsAtStep told before after (Run raw schedule input limit name.now) (Form name.now) refusal) }
{
    if raw {
        raw_program(alloc, name, bytes)
    } else {
        exec_program(alloc, name, bytes)
    }
}

// The refusal of the file `name` for why the program that it holds is not loaded.
fn no_load(name: &str, fault: LoadError) -> Refusal<'_>
    ensures { (told : Option Contents) (before after : ℕ) (raw : Bool) (schedule input : Option (List ℕ)) (limit : ℕ)
        → FileMeets told name.now (λ held. fault ≢ LoadError.NoMemory → (image : Image) × IsProgram raw held image × (load_error image ≡ Some fault))
        → IsAtStep told before after (Run raw schedule input limit name.now) (Form name.now) result }
{
    match fault {
        LoadError::NoMemory => Refusal::NoMemory,
        _ => Refusal::Unfit(name, Unfit::NoLoad(fault)),
    }
}

// The process of the program that the file `name` holds, whose image this is.
fn start_process<'a>(
    alloc: Global,
    name: &'a str,
    image: &Image,
    input: &[u8],
) -> Result<Process, Refusal<'a>>
    ensures started { IfOk result (λ process. start image.now input.now ≡ Some process) }
    ensures refused { IfErr result (λ refusal. (told : Option Contents) (before after : ℕ) (raw : Bool) (schedule given : Option (List ℕ)) (limit : ℕ)
        → FileMeets told name.now (λ held. IsProgram raw held image.now) → IsAtStep told before after (Run raw schedule given limit name.now) (Form name.now) refusal) }
{
    match load(alloc, image, input) {
        Ok(process) => Ok(process),
        Err(fault) => Err(no_load(name, fault)),
    }
}

// The refusal of the file `name` for what is wrong with the schedule that it is not.
fn no_schedule(name: &str, fault: ScheduleError) -> Refusal<'_>
    ensures { (told : Option Contents) (before after : ℕ) (command : Command)
        → FileMeets told name.now (λ held. fault ≢ ScheduleError.NoMemory → IsUnfitFor command (NoSchedule fault) held)
        → IsAtStep told before after command (Schedule name.now) result }
{
    match fault {
        ScheduleError::NoMemory => Refusal::NoMemory,
        _ => Refusal::Unfit(name, Unfit::NoSchedule(fault)),
    }
}

// The events of the schedule that the file `name` holds.
fn read_events<'a>(alloc: Global, name: &'a str, text: &[u8]) -> Result<EventList, Refusal<'a>>
    requires { length text.now ≤ FILE_LIMIT }
    ensures events { IfOk result (IsSchedule text.now) }
    ensures refused { IfErr result (λ refusal. (told : Option Contents) (before after : ℕ) (raw : Bool) (schedule input : Option (List ℕ)) (limit : ℕ) (file : List ℕ)
        → FileMeets told name.now (λ held. held ≡ text.now) → IsAtStep told before after (Run raw schedule input limit file) (Schedule name.now) refusal) }
{
    match read_schedule(alloc, text) {
        Ok(events) => Ok(events),
        Err(fault) => Err(no_schedule(name, fault)),
    }
}

// The events of the schedule, or none where it is not given.
fn option_events<'a>(
    alloc: Global,
    schedule: Option<&'a str>,
    text: &[u8],
) -> Result<EventList, Refusal<'a>>
    requires { length text.now ≤ FILE_LIMIT }
    ensures events { IfOk result (λ events. (told : Option Contents) → HoldsOption told (word_of schedule.entry) text.now → HoldsSchedule told (word_of schedule.entry) events) }
    ensures refused { IfErr result (λ refusal. (told : Option Contents) (before after : ℕ)
        → HoldsOption told (word_of schedule.entry) text.now → IsAtSchedule told before after (word_of schedule.entry) refusal) }
{
    match schedule {
        Some(name) => read_events(alloc, name, text),
        None => Ok(EventList::new(alloc)),
    }
}

// The report of the run, whose choosers and watchers these are.
fn report<'a, F: Files, C: Chooser, W: Watcher>(
    alloc: Global,
    request: RunRequest<'a>,
    files: &mut F,
    choosers: Vec<C>,
    watchers: &mut Vec<W>,
) -> Result<Report, Refusal<'a>>
    ensures contents { F.contents files.new ≡ F.contents files.old }
    ensures run { let q = request.entry in IfOk result (IsRun (F.contents files.old) (map C.plan choosers.items) q.raw (word_of q.schedule) (word_of q.input) q.limit q.file.now) }
    ensures watched { IfOk result (λ report. AreWatched (map W.seen watchers.old.items) report.events (map W.seen watchers.new.items)) }
    ensures untouched { IfOk result (λ report. report.events ≡ [] → watchers.new.items ≡ watchers.old.items) }
    ensures watchers_stay { IfErr result (λ refusal. IsBeforeRun refusal → watchers.new.items ≡ watchers.old.items) }
    ensures refused { IfErr result (IsOfFiles (F.contents files.old) (F.faults files.old) (F.faults files.new) (run_of request.entry)) }
{
    let held = read_files(alloc, request, files)?;
    let events = option_events(alloc, request.schedule, &held.schedule)?;
    let image = read_program(alloc, request.raw, request.file, &held.program)?;
    let process = start_process(alloc, request.file, &image, &held.input)?;
    match run_with(
        alloc,
        process,
        events.as_slice(),
        choosers,
        watchers,
        request.limit,
    ) {
        Ok(report) => Ok(report),
        Err(NoMemory) => Err(Refusal::NoMemory),
    }
}

// The status of a run that ended so.
fn run_status(last: RunEnd) -> u8
    ensures { result ≡ status_of_end last }
{
    match last {
        RunEnd::Ended { status: 0 } | RunEnd::LimitReached | RunEnd::ChoicesEnded => status::DONE,
        RunEnd::Ended { .. } | RunEnd::Died { .. } => status::FAILED,
    }
}

/// Reads the files, runs the program, and writes the report to the output. After the events of the schedule come those that the choosers answer, one
/// chooser after another; the watchers see each event.
pub fn run<'a, F: Files, O: Sink, C: Chooser, W: Watcher>(
    alloc: Global,
    request: RunRequest<'a>,
    files: &mut F,
    out: &mut O,
    choosers: Vec<C>,
    watchers: &mut Vec<W>,
) -> Result<u8, Refusal<'a>>
    ensures contents { F.contents files.new ≡ F.contents files.old }
    ensures reported { IfOk result (λ status. (text : List ℕ) × Gains (O.bytes out.old) (O.bytes out.new) text
        × IsReport (F.contents files.old) (map C.plan choosers.items) (run_of request.entry) status text) }
    ensures watched { IfOk result (λ status. AreWatchersOf (F.contents files.old) (map C.plan choosers.items) (run_of request.entry)
        (Gains (O.bytes out.old) (O.bytes out.new)) W.seen watchers.old.items watchers.new.items) }
    ensures watched_cut_off { IfErr result (λ refusal. refusal ≡ Refusal.Unwritten → AreWatchersOf (F.contents files.old) (map C.plan choosers.items) (run_of request.entry)
        (GainsPart (O.bytes out.old) (O.bytes out.new)) W.seen watchers.old.items watchers.new.items) }
    ensures watchers_stay { IfErr result (λ refusal. IsBeforeRun refusal → watchers.new.items ≡ watchers.old.items) }
    ensures refused { IfErr result (HasCause (record {
      files = F.contents files.old;
      plans = map C.plan choosers.items;
      faults_before = F.faults files.old;
      faults_after = F.faults files.new;
      out_before = O.bytes out.old;
      out_after = O.bytes out.new;
      out_faults_before = O.faults out.old;
      out_faults_after = O.faults out.new;
    }) (run_of request.entry)) }
{
    let done = report(alloc, request, files, choosers, watchers)?;
    if write_run(&done, out).is_err() {
        return Err(Refusal::Unwritten);
    }
    Ok(run_status(done.last))
}
