//! Laws over the definitions, each the contract of a function with nothing to do.

ghost use Rattle.script_trace.specs.NoteLaws.{ExplanationIsOne, ExplanationsAreJudged, ExplanationsHoldReports, ScriptsAreAccounted};
ghost use Rattle.script_trace.specs.WorkedNotes.{DropsAreWorked};
ghost use Rattle.script_trace.specs.WorkedEnds.{EndsAreWorked};

/// The lines of an explained script are run as by a replay, to the same standing, and the replay's report is
/// what is written with the lines left out that begin with `# `.
pub fn explanations_hold_reports()
    ensures { ExplanationsHoldReports }
{}

/// A script has one explanation: the same lines have one text, and stand in one way behind it.
pub fn explanation_is_one()
    ensures { ExplanationIsOne }
{}

/// At every line of every script the notes so far account for each datagram, each block, each opened block and, in
/// order, each fill of the acquisition and each buffer that it dropped, and tell the end of each block that retired, once.
pub fn scripts_are_accounted()
    ensures { ScriptsAreAccounted }
{}

/// The lines of an explained script are judged as those of a replay.
pub fn explanations_are_judged()
    ensures { ExplanationsAreJudged }
{}

/// What some acts of the acquisition dropped from the output, as they were worked out by hand.
pub fn drops_are_worked()
    ensures { DropsAreWorked }
{}

/// The last note of an explanation, in which no two numbers are equal, and the note of a datagram that came while the stream
/// wasn't running, as they were worked out by hand.
pub fn ends_are_worked()
    ensures { EndsAreWorked }
{}
