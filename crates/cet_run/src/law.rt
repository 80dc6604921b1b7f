//! Laws of runs, each the contract of a function that does nothing.
ghost use Rattle.cet_run.specs.Laws.{IsLimited, NoneIsLeft};

/// No run has more events than its limit.
pub fn is_limited()
    ensures { IsLimited }
{}

/// Where a run has fewer events than its limit, none was left to choose: with a higher limit it is the same run.
pub fn none_is_left()
    ensures { NoneIsLeft }
{}
