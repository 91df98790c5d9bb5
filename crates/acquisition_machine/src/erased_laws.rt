//! What the definitions promise: each function here does nothing, and its contract is a law.

ghost use Rattle.acquisition_machine.specs.ErasedLaws.{PlacesAreNotRead, CountsAreNotRead, RunsAgree};

/// The acquisition machine never looks at where a buffer lies.
pub fn places_are_not_read()
    ensures { PlacesAreNotRead }
{}

/// It never looks at what it counted.
pub fn counts_are_not_read()
    ensures { CountsAreNotRead }
{}

/// So two runs of the same turns retire the same images, in the same order, wherever their buffers lay.
pub fn runs_agree()
    ensures { RunsAgree }
{}
