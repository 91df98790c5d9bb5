//! What the definitions promise: each function here does nothing, and its contract is a law.

ghost use Rattle.gev_record.specs.Laws.{ScriptTellsTheRun, MarksTellTheScript, RecordedRunsReplay, RestsBetweenTurns};

/// The inputs that a recorded script tells are those of a run of the recorded turns.
pub fn script_tells_the_run()
    ensures { ScriptTellsTheRun }
{}

/// What the marks of a run tell of its inputs they tell of its script's too.
pub fn marks_tell_the_script()
    ensures { MarksTellTheScript }
{}

/// A recorded script, replayed, takes just the images that the recorded run retired, in the same order,
/// wherever the run's own buffers lay.
pub fn recorded_runs_replay()
    ensures { RecordedRunsReplay }
{}

/// Between two turns of such a replay pool and output are empty, and each of the three places is held by
/// one open block, or its buffer lies there.
pub fn rests_between_turns()
    ensures { RestsBetweenTurns }
{}
