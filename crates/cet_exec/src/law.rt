//! A law of executables and their files, over the definitions alone: the contract of a function that does nothing.

ghost use Rattle.cet_exec.specs.Laws.{WrittenReadsBack};

/// What is written for a regular executable is read as that executable.
pub fn written_reads_back()
    ensures { WrittenReadsBack }
{}
