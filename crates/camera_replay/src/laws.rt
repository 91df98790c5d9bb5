//! What the definitions promise: each function here does nothing, and its contract is a law.

ghost use Rattle.camera_replay.specs.Worked.{ScriptsAreWorked};
ghost use Rattle.camera_replay.specs.Laws.{LinesAreJudged, LinesAreInPlace, ReportIsOne, TurnsGiveAll, LinesAreEvents, ReportsAreTold, ScriptsTell};

/// Whether a line is run, ends its script or is refused follows from its number and its bytes alone; and
/// behind n lines fewer than n frames were made since the stream channel opened.
pub fn lines_are_judged()
    ensures { LinesAreJudged }
{}

/// A line behind the header that isn't refused is `t`, `c`, `frame` or `end`.
pub fn lines_are_in_place()
    ensures { LinesAreInPlace }
{}

/// A script has one report.
pub fn report_is_one()
    ensures { ReportIsOne }
{}

/// The packets that are printed behind a command or a frame are those that the camera gives, one call after
/// the other, until none waits.
pub fn turns_give_all()
    ensures { TurnsGiveAll }
{}

/// Each line comes to events of the camera, which print its report.
pub fn lines_are_events()
    ensures { LinesAreEvents }
{}

/// The report of every script, however far it was run, is what events of its camera print: acknowledges,
/// the numbers of frames, and the packets that were given. Between two lines no packet waits.
pub fn reports_are_told()
    ensures { ReportsAreTold }
{}

/// Each line of a script comes to events of the camera that it finds, which print its report and leave the camera that it
/// leaves; and at most one peer has control of that camera.
pub fn scripts_tell()
    ensures { ScriptsTell }
{}

/// Scripts that are written out, with their reports.
pub fn scripts_are_worked()
    ensures { ScriptsAreWorked }
{}
