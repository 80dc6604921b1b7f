//! One line of a schedule.
ghost use Rattle.std.specs.Prelude.{◌≡◌, ◌∷◌, [], option_map};
ghost use Rattle.cet_schedule.specs.Schedule.{step_of, signal_of, steps_of, count_of, events_of};
ghost use Rattle.cet_schedule.specs.Number.{number_below};
ghost use Rattle.cet_schedule.specs.Fields.{parts};
ghost use Rattle.cet_schedule.specs.Entry.{events_in};

use crate::fields::{three_fields, two_fields};
use crate::number::{number, short_number};
use cet_process::Event;

/// The most that the free bits of a step can be.
const MOST_FREE: u64 = 15;

/// The most steps of one line.
pub(crate) const MOST_STEPS: u32 = 1_000_000;

/// What a line adds to the schedule.
#[derive(Clone, Copy, Debug, PartialEq, Eq)]
pub(crate) enum Entry {
    Nothing,
    /// So many events like this one.
    Events { count: u32, event: Event },
}

impl Entry {
    fn once(event: Event) -> Entry
        ensures { events_in result ≡ event ∷ [] }
    {
        Entry::Events { count: 1, event }
    }
}

fn free_bits(bytes: &[u8]) -> Option<u8>
    ensures { result ≡ number_below 16 bytes.now }
{
    let free = number(bytes)?;
    if free > MOST_FREE {
        return None;
    }
    Some(free as u8)
}

fn step_count(bytes: &[u8]) -> Option<u32>
    ensures { result ≡ count_of bytes.now }
{
    let count = short_number(bytes)?;
    if count == 0 || count > MOST_STEPS {
        return None;
    }
    Some(count)
}

/// `THREAD FREE ANSWER`: one step.
fn step(fields: &[u8]) -> Option<Entry>
    ensures { option_map events_in result ≡ step_of (parts 32 fields.now) }
{
    let (thread, free, answer) = three_fields(fields)?;
    Some(Entry::once(Event::Step {
        thread: short_number(thread)?,
        free: free_bits(free)?,
        answer: number(answer)?,
    }))
}

/// `THREAD SIGNO`: one signal.
fn signal(fields: &[u8]) -> Option<Entry>
    ensures { option_map events_in result ≡ signal_of (parts 32 fields.now) }
{
    let (thread, signo) = two_fields(fields)?;
    Some(Entry::once(Event::Signal {
        thread: short_number(thread)?,
        signo: short_number(signo)?,
    }))
}

/// `COUNT THREAD`: so many steps with free 0 and answer 0.
fn steps(fields: &[u8]) -> Option<Entry>
    ensures { option_map events_in result ≡ steps_of (parts 32 fields.now) }
{
    let (count, thread) = two_fields(fields)?;
    Some(Entry::Events {
        count: step_count(count)?,
        event: Event::Step {
            thread: short_number(thread)?,
            free: 0,
            answer: 0,
        },
    })
}

/// What a line adds, without its line feed. None where it is outside the grammar.
pub(crate) fn read_line(line: &[u8]) -> Option<Entry>
    ensures { option_map events_in result ≡ events_of line.now }
{
    if line.is_empty() {
        Some(Entry::Nothing)
    } else if line.starts_with(b"s ") {
        step(&line[2..])
    } else if line.starts_with(b"g ") {
        signal(&line[2..])
    } else if line.starts_with(b"x ") {
        steps(&line[2..])
    } else {
        None
    }
}
