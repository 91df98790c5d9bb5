//! The run of a camera script: a simulated camera obeys the lines, and what it answers is reported.
//!
//! `specs/Serving.antt` says what each line does to the camera and to the moment, and its report;
//! `specs/Standing.antt` which lines of a script are run, in which order, and which are refused.
//! `specs/Printing.antt` tells the same by the camera's events, and `specs/Laws.antt` joins the two.
//!
//! `CameraRun` is the `Machine` that `script_runs` runs over a source and a sink. Memory is taken for the camera at
//! the header, for a frame's pixels, and where the report has to grow.
#![tactic(auto)]

mod beginning; // the header
mod camera_run; // the machine that runs a camera script
mod later; // the lines behind the header
mod laws; // what holds of every such script, as contracts
mod lines; // what each line has the camera do
mod packets; // lines of stream packets
mod rooms; // where a command and a packet lie
mod running; // what a script runs on behind its header

pub use camera_run::CameraRun;
pub use laws::{
    lines_are_events, lines_are_in_place, lines_are_judged, report_is_one, reports_are_told,
    scripts_are_worked, scripts_tell, turns_give_all,
};
pub use running::Running;
