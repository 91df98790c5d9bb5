//! A law over the definitions, the contract of a function with nothing to do.

ghost use Rattle.note_tape.specs.Rounds.{RoundsAreTold};

/// The requests of a moment, each with the round of its block after it, are what the moment tells.
pub fn rounds_are_told()
    ensures { RoundsAreTold }
{}
