//! The loop that runs a script: each line is run as it's read, and its report written before the next
//! line is read.
//!
//! What a line does is said by a `Machine`; where the first line makes what the others are run on, by what is
//! `Headed`. `specs/Runs.antt` says what a run over some lines is, and `specs/Outcomes.antt` what a run has read and
//! written by how it ended.
#![tactic(auto)]

mod ending; // how a run ended
mod headed; // a header, and lines on what it made
mod machine; // what runs the lines
mod modelled; // a machine whose states stand for plain ones
mod ran; // what a line did
mod running; // the loop over the lines
mod stop; // why a line wasn't run

pub use ending::Ending;
pub use headed::{Headed, run_headed};
pub use machine::Machine;
pub use modelled::{Modelled, run_modelled};
pub use ran::Ran;
pub use running::run_script;
pub use stop::Stop;
