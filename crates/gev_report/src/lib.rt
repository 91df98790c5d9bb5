//! The lines that the program prints, each by one call that adds it with its line feed.
//!
//! A call takes memory only where `out` has to grow. After `NoMemory` the text of `out` is as it was.
#![tactic(auto)]

mod account_texts; // what became of a block
mod camera_lines; // lines of a camera script
mod end_counts; // the numbers of a replay's last line
mod live_lines; // the last line of a live run
mod piece; // a part of a line
mod replay_lines; // lines of a replay
mod soak_lines; // the last line of a soak run
mod soak_numbers; // its numbers
mod step_text; // what a step was answered
mod writing; // lines from their parts

pub use account_texts::{add_cause, add_ids, add_why};
pub use camera_lines::{line_ack, line_executed, line_frame, line_stream};
pub use end_counts::EndCounts;
pub use live_lines::line_live;
pub use replay_lines::{
    line_end, line_id, line_number, line_request, line_result, line_step, line_take, line_value,
};
pub use soak_lines::line_soak;
pub use soak_numbers::SoakNumbers;
pub use step_text::StepText;
