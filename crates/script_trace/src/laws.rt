//! What the definitions promise: each function here does nothing, and its contract is a law.

ghost use Rattle.script_trace.specs.Worked.{ScriptsAreWorked};
ghost use Rattle.script_trace.specs.Takes.{TakesAreCounted};
ghost use Rattle.script_trace.specs.Laws.{TracesKeepPromises, RunsKeepPromises, LinesAreJudged, TraceIsOne, ReportIsOne, TracesRest, LinesHaveATrace};

/// Of every trace: its history is the board machine's, each buffer has one owner at each step of it,
/// and filled buffers are handed out or dropped once, in the order of their fills, none after a close. The
/// acquisition's fills are the blocks that retire with a buffer, all and in order; each of them, and so
/// each buffer that is handed out or dropped with a block in it, is its block's frame, or has each received
/// byte in place, tells no other frame's image and isn't marked complete. Nobody else fills more than empty records.
pub fn traces_keep_promises()
    ensures { TracesKeepPromises }
{}

/// The same of every script, however far it was run, and that the trace's text is its report where no
/// datagram was widened, as in every script of version 1.
pub fn runs_keep_promises()
    ensures { RunsKeepPromises }
{}

/// What the takes of some actors took in a history, as the end of a report counts it, are the buffers that
/// they removed from the output: so what is counted as handed out was handed out, and what is counted as
/// dropped was dropped.
pub fn takes_are_counted()
    ensures { TakesAreCounted }
{}

/// Between two lines the acquisition awaits no claim, and where the stream isn't running no block is
/// open.
pub fn traces_rest()
    ensures { TracesRest }
{}

/// Whether a line is run, ends its script or is refused follows from its number and its bytes alone.
pub fn lines_are_judged()
    ensures { LinesAreJudged }
{}

/// Lines behind a header lead to a trace: whatever they ask for, each call on the board has an answer,
/// and each buffer that the acquisition gives back was in its hands.
pub fn lines_have_a_trace()
    ensures { LinesHaveATrace }
{}

/// Of one script's lines there is one trace: entries, inputs, handles and text.
pub fn trace_is_one()
    ensures { TraceIsOne }
{}

/// So a script has one report.
pub fn report_is_one()
    ensures { ReportIsOne }
{}

/// Scripts that are written out, with their reports.
pub fn scripts_are_worked()
    ensures { ScriptsAreWorked }
{}
