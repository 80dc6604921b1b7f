//! The run of one process, whose events choosers choose and watchers see that the caller hands in.
ghost use Rattle.std.specs.Prelude.{◌≡◌, ◌≤◌, [], map, reverse, length, IfOk, OnOk};
ghost use Rattle.cet_process.specs.Run.{state_after};
ghost use Rattle.cet_run.specs.Report.{done as done_of, last as last_of};
ghost use Rattle.cet_run.specs.Turn.{ChoosesNext, Turns};
ghost use Rattle.cet_run.specs.Run.{applied, BeginsWith, AreChosen, AreWatched, UsesGiven, IsRun};

use crate::report::{Done, DoneList, Report, RunEnd};
use cet_base::{Bytes, NoMemory};
use cet_choosers::{Chooser, Watcher, show};
use cet_kernel::Process;
use cet_process::{Event, Outcome, View};
use std::alloc::Global;

/// The most events of a report, which takes less than 1 GiB. Where a run has one more, that is want of memory.
const MOST_EVENTS: usize = 8_388_608;

/// The next event: the given one of this index, or else that of the last chooser that has one.
fn next_event<C: Chooser>(
    view: View,
    given: &[Event],
    index: usize,
    choosers: &mut Vec<C>,
) -> Option<Event>
    ensures { ChoosesNext view given.now index (map C.plan (reverse choosers.old.items)) (map C.plan (reverse choosers.new.items)) result }
{
    if let Some(event) = given.get(index) {
        return Some(*event);
    }
    cet_choosers::next_event(choosers, view)
}

/// Applies one event: the given one of this index, or else that of the last chooser that has one. `None` where the process has ended, or there is
/// no event to choose.
fn turn<C: Chooser>(
    process: &mut Process,
    given: &[Event],
    index: usize,
    choosers: &mut Vec<C>,
) -> Result<Option<Done>, NoMemory>
    ensures { IfOk result (Turns process.old process.new given.now index (map C.plan (reverse choosers.old.items)) (map C.plan (reverse choosers.new.items))) }
{
    if process.ended().is_some() {
        return Ok(None);
    }
    match next_event(process.view(), given, index, choosers) {
        None => Ok(None),
        Some(event) => {
            let outcome = process.apply(event)?;
            Ok(Some(Done { event, outcome }))
        }
    }
}

/// Applies the events of a run, shows each to the watchers, and keeps each with its outcome. The first chooser stands last.
fn apply_all<C: Chooser, W: Watcher>(
    process: &mut Process,
    given: &[Event],
    choosers: &mut Vec<C>,
    watchers: &mut Vec<W>,
    limit: u32,
    events: &mut DoneList,
) -> Result<(), NoMemory>
    requires { events.old ≡ [] }
    ensures run { OnOk result (IsRun process.old given.now (map C.plan (reverse choosers.old.items)) limit process.new events.new) }
    ensures watched { OnOk result (AreWatched (map W.seen watchers.old.items) events.new (map W.seen watchers.new.items)) }
    ensures untouched { OnOk result (events.new ≡ [] → watchers.new.items ≡ watchers.old.items) }
{
    for index in 0..limit as usize {
        let turned = turn(process, given, index, choosers)?;
        match turned {
            None => return Ok(()),
            Some(done) => {
                if index == MOST_EVENTS {
                    return Err(NoMemory);
                }
                show(watchers, done.event, done.outcome);
                events.push(done)?;
            }
        }
    }
    Ok(())
}

/// How a run ended, after which this is how the process ended, if it has.
fn last_of(end: Option<Outcome>, applied: usize, limit: u32) -> RunEnd
    ensures { result ≡ last_of end applied limit }
{
    match end {
        Some(Outcome::Ended { status }) => RunEnd::Ended { status },
        Some(Outcome::Died { thread, fault, rip }) => RunEnd::Died { thread, fault, rip },
        _ if applied == limit as usize => RunEnd::LimitReached,
        _ => RunEnd::ChoicesEnded,
    }
}

/// Runs a process to its end, to `limit` events, or to where the given events are used and no chooser is left. The given events come first, then those
/// of the first chooser; one without a further event makes room for the next and is dropped. The watchers are shown every event and what it came to, in
/// the order of the list, which loses those that have enough. The report lists the events with their outcomes. A run of more than 8,388,608 events
/// answers `NoMemory`, after which nothing is said of the watchers.
pub fn run_with<C: Chooser, W: Watcher>(
    alloc: Global,
    mut process: Process,
    given: &[Event],
    mut choosers: Vec<C>,
    watchers: &mut Vec<W>,
    limit: u32,
) -> Result<Report, NoMemory>
    ensures events { IfOk result (λ report. report.events ≡ done_of process (applied report.events)) }
    ensures output { IfOk result (λ report. report.output ≡ (state_after process (applied report.events)).output) }
    ensures last { IfOk result (λ report. report.last ≡ last_of (state_after process (applied report.events)).end (length report.events) limit) }
    ensures given_first { IfOk result (λ report. BeginsWith given.now (applied report.events)) }
    ensures within { IfOk result (λ report. length report.events ≤ limit) }
    ensures used { IfOk result (λ report. UsesGiven process given.now limit report.events) }
    ensures chosen { IfOk result (λ report. AreChosen process given.now (map C.plan choosers.items) limit (applied report.events)) }
    ensures watched { IfOk result (λ report. AreWatched (map W.seen watchers.old.items) report.events (map W.seen watchers.new.items)) }
    ensures untouched { IfOk result (λ report. report.events ≡ [] → watchers.new.items ≡ watchers.old.items) }
{
    choosers.reverse();
    let mut events = DoneList::new(alloc);
    apply_all(
        &mut process,
        given,
        &mut choosers,
        watchers,
        limit,
        &mut events,
    )?;
    let output = Bytes::from_slice(alloc, process.output())?;
    let last = last_of(process.ended(), events.len(), limit);
    Ok(Report {
        events,
        output,
        last,
    })
}

/// The same with boxes, so that choosers and watchers of several types take part.
pub fn run(
    alloc: Global,
    process: Process,
    given: &[Event],
    choosers: Vec<Box<dyn Chooser>>,
    watchers: &mut Vec<Box<dyn Watcher>>,
    limit: u32,
) -> Result<Report, NoMemory>
    ensures events { IfOk result (λ report. report.events ≡ done_of process (applied report.events)) }
    ensures output { IfOk result (λ report. report.output ≡ (state_after process (applied report.events)).output) }
    ensures last { IfOk result (λ report. report.last ≡ last_of (state_after process (applied report.events)).end (length report.events) limit) }
    ensures given_first { IfOk result (λ report. BeginsWith given.now (applied report.events)) }
    ensures within { IfOk result (λ report. length report.events ≤ limit) }
    ensures used { IfOk result (λ report. UsesGiven process given.now limit report.events) }
    ensures chosen { IfOk result (λ report. AreChosen process given.now (map (λ c. plan c) choosers.items) limit (applied report.events)) }
    ensures watched { IfOk result (λ report. AreWatched (map (λ w. seen w) watchers.old.items) report.events (map (λ w. seen w) watchers.new.items)) }
    ensures untouched { IfOk result (λ report. report.events ≡ [] → watchers.new.items ≡ watchers.old.items) }
{
    run_with(alloc, process, given, choosers, watchers, limit)
}
