//! What the definitions promise: the function here does nothing, and its contract is a law.

ghost use Rattle.gev_record.specs.Reports.{RecordedScriptsReport};

/// A recorded script of at most 100,000 turns is a script, and the take lines of its report are, in order,
/// the lines of what the recorded run retired with a buffer, whatever ids the buffers have in either.
pub fn recorded_scripts_report()
    ensures { RecordedScriptsReport }
{}
