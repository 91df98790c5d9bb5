//! The recorder's run: a live run over a tape, and its script in place of its lines.
//!
//! `specs/Recorded.antt` says what a recorded run did and wrote, `specs/Marks.antt` which its marks are, and
//! `specs/Replayed.antt` what its script's replay reports.
#![tactic(auto)]

mod marks; // the marks of a run, by its reader's journal
mod nowhere; // a sink that keeps nothing
mod recording; // a run over a tape, and its script

pub use recording::record_over;
