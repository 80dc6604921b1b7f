//! Laws of notes, over the definitions alone. Each is the contract of a function that does nothing.

ghost use Rattle.cet_note.specs.Laws.{WrittenReadsBack, WrittenIsForm, OneNote, OneMerge};

/// What is written for a note of the three ranges is a form of that note, and is read as it.
pub fn written_reads_back()
    ensures form { WrittenIsForm }
    ensures read { WrittenReadsBack }
{}

/// Bytes stand for one note at most.
pub fn one_note()
    ensures { OneNote }
{}

/// Notes merge to one note at most.
pub fn one_merge()
    ensures { OneMerge }
{}
