//! Whole texts.
ghost use Rattle.std.specs.Prelude.{◌≡◌, ◌≢◌, ◌++◌, ◌+◌, ◌<◌, ◌≤◌, ◌^◌, length, replicate, IfOk, IfErr, OnOk, Ok, Err, drop};
ghost use Rattle.cet_schedule.specs.declared.error.ScheduleError.TheVariants as fault;
ghost use Rattle.cet_schedule.specs.Schedule.{events_of, added, schedule};

use crate::error::ScheduleError;
use crate::fields::cut;
use crate::line::{Entry, read_line};
use cet_base::{Items, NoMemory};
use cet_process::Event;
use std::alloc::Global;

/// Events in order.
pub type EventList = Items<Event>;

/// The most events of a schedule.
const EVENT_LIMIT: usize = 1_000_000;

const LINE_FEED: u8 = b'\n';

/// Adds so many events like this one.
fn push_events(events: &mut EventList, count: u32, event: Event) -> Result<(), NoMemory>
    ensures { OnOk result (events.new ≡ events.old ++ replicate count event) }
{
    for _ in 0..count {
        events.push(event)?;
    }
    Ok(())
}

/// Adds the events of the line of this number.
fn add_line(events: &mut EventList, number: u32, line: &[u8]) -> Result<(), ScheduleError>
    requires { length events.old ≤ EVENT_LIMIT }
    ensures events { OnOk result (added number events.old (events_of line.now) ≡ Ok events.new) }
    ensures most { OnOk result (length events.new ≤ EVENT_LIMIT) }
    ensures fault { IfErr result (λ e. e ≢ fault.NoMemory → added number events.old (events_of line.now) ≡ Err e) }
{
    let Some(entry) = read_line(line) else {
        return Err(ScheduleError::Line { line: number });
    };
    if let Entry::Events { count, event } = entry {
        if count as usize > EVENT_LIMIT - events.len() {
            return Err(ScheduleError::TooMany { line: number });
        }
        push_events(events, count, event)?;
    }
    Ok(())
}

/// The events of a schedule's text. Each line ends at a line feed, the last one too, and is empty or one of `s THREAD FREE ANSWER`, a step;
/// `g THREAD SIGNO`, a signal; `x COUNT THREAD`, so many steps with free 0 and answer 0, where COUNT is 1 to 1,000,000. Fields are parted by one
/// space. Numbers are decimal, or hexadecimal after `0x`; THREAD and SIGNO are below 2^32, FREE is 0 to 15, ANSWER is below 2^64.
/// `Line` names the first line that is none of these, or that no line feed ends; `TooMany` the first that takes the events past 1,000,000.
/// The text has fewer than 2^32 bytes.
pub fn read_schedule(alloc: Global, text: &[u8]) -> Result<EventList, ScheduleError>
    requires { length text.now < 2 ^ 32 }
    ensures events { IfOk result (λ events. schedule text.now ≡ Ok events) }
    ensures fault { IfErr result (λ e. e ≢ fault.NoMemory → schedule text.now ≡ Err e) }
{
    let mut events = EventList::new(alloc);
    let mut number = 0;
    let mut rest = text;
    while let Some((line, behind)) = cut(LINE_FEED, rest) {
        number += 1;
        add_line(&mut events, number, line)?;
        rest = behind;
    }
    if rest.is_empty() {
        Ok(events)
    } else {
        Err(ScheduleError::Line { line: number + 1 })
    }
}
