//! Laws of links, over the definitions alone. Each is a clause of a function that does nothing.

ghost use Rattle.cet_link.specs.Links.{OneExecutable, OneFault, NotBoth};

/// Inputs have one executable at most, and one first fault at most, and not both.
pub fn one_answer()
    ensures executable { OneExecutable }
    ensures fault { OneFault }
    ensures not_both { NotBoth }
{}
