//! A law of objects and their files, over the definitions alone: the contract of a function that does nothing.

ghost use Rattle.cet_elf.specs.Laws.{WrittenReadsBack};

/// What is written for a regular object is read as that object.
pub fn written_reads_back()
    ensures { WrittenReadsBack }
{}
