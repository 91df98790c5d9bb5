//! A law over the definitions, the contract of a function with nothing to do.

ghost use Rattle.note_tape.specs.Counting.{TalliesAreCounted};

/// Counting note by note is counting all of them.
pub fn tallies_are_counted()
    ensures { TalliesAreCounted }
{}
