//! The trace of a replay script, as definitions and laws: what its lines do to the board, to the
//! acquisition and to the handles, what they report, and what is told of each.
//!
//! `specs/Trace.antt` says what a trace is, and `specs/Adding.antt` what each line adds to it, by the
//! files on the lines: `BoardLines`, `StreamLines`, `HandleLines` and `StepLines`. `specs/Standing.antt`
//! says which lines of a script are run, in which order, and which are refused; `specs/Ending.antt` has
//! the last lines of the report. `specs/Laws.antt` says what holds of every trace.
//!
//! `specs/Notes.antt` has the notes on an acquisition: what became of a datagram that isn't in an image, which
//! blocks were opened, which retired and why, and which frames were lost. `specs/Inputs.antt` says which ones
//! each input makes, `specs/LineNotes.antt` which ones a line of a script, and `specs/Explaining.antt` has the
//! explained run: a replay with notes before the report of each line. `specs/InputLaws.antt` and
//! `specs/NoteLaws.antt` say what the notes account for.
//!
//! `specs/Narrowing.antt` says when one script is another with its packets' identifiers narrowed to the
//! standard's first form; both lead to one trace (`standard_laws`). No code of this crate runs: the functions
//! carry the laws.
#![tactic(auto)]

mod input_laws;
mod laws;
mod note_laws;
pub mod standard_laws;

pub use input_laws::{
    blocks_are_accounted, counts_are_accounted, notes_are_reasoned, notes_are_worked,
    opened_are_accounted,
};
pub use laws::{
    lines_are_judged, lines_have_a_trace, report_is_one, runs_keep_promises, scripts_are_worked,
    takes_are_counted, trace_is_one, traces_keep_promises, traces_rest,
};
pub use note_laws::{
    drops_are_worked, ends_are_worked, explanation_is_one, explanations_are_judged,
    explanations_hold_reports, scripts_are_accounted,
};
