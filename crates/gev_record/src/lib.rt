//! The recorder: a link that keeps what it hears, and the script that such a tape and the marks of its run make.
//!
//! A `Tape` wraps a link and is one. `specs/Taped.antt` says what it keeps of what its link told, and
//! `specs/Writing.antt` what became of a script that was written.
//!
//! `specs/Script.antt` says which lines the datagrams and marks of a run make, `specs/Marks.antt` which marks are a
//! run's, and `specs/Reports.antt` which report a script has; `laws` and `report_laws` have what is true of them: the
//! take lines of a recorded script's report are those of what the recorded run filled.
#![tactic(auto)]

mod kept; // what one receive gave
mod laws; // what a recorded script tells, and its replay
mod lines; // the line of a datagram
mod record_end; // why a script was written in part
mod replica; // the run's receiver once more
mod report_laws; // what that replay reports
mod tape; // a link that keeps what it hears
mod turns; // the lines of a turn
mod used; // which places open blocks have
mod writing; // the whole script

pub use acquisition_machine::Mark;
pub use laws::{
    marks_tell_the_script, recorded_runs_replay, rests_between_turns, script_tells_the_run,
};
pub use record_end::RecordEnd;
pub use report_laws::recorded_scripts_report;
pub use tape::Tape;
pub use writing::write_script;
