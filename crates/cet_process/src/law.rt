//! Laws of processes, each the contract of a function that does nothing.

ghost use Rattle.cet_process.specs.Laws.{StartIsWellFormed, SegmentsAreLoaded, StacksAreLoaded, EventKeeps, RunKeeps, EventKeepsWords, EndStays, RunInParts};

/// A loaded process is well formed: no region meets another, stacks are a gap apart from all others, its thread has 16 registers. The pages of
/// its segments and its stacks stand in memory.
pub fn start()
    ensures well_formed { StartIsWellFormed }
    ensures segments { SegmentsAreLoaded }
    ensures stacks { StacksAreLoaded }
{}

/// Every event keeps the mode, regions that do not meet, a gap around each stack and each mapping, 16 registers in each thread, the limits of a
/// process, and what is read of regions that are neither Write nor Shadow; bytes stay below 256. So does every list of events.
pub fn events_keep()
    ensures event { EventKeeps }
    ensures run { RunKeeps }
{}

/// An event whose numbers lie in their fields keeps bytes below 256 and all that threads and actions have below 2^64.
pub fn words_stay()
    ensures { EventKeepsWords }
{}

/// A process that has ended stays as it is.
pub fn end_stays()
    ensures { EndStays }
{}

/// The events of a run may be taken in two parts.
pub fn run_in_parts()
    ensures { RunInParts }
{}
