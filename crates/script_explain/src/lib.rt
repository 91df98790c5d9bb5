//! The explanation of a replay script: a replay with notes before the report of each line, of which frames were
//! lost, why each incomplete one is as it is, and what became of each datagram that isn't in an image.
//!
//! What is told of a line stands on a tape until the line was run; then it is printed and counted, and the report
//! behind it.
#![tactic(auto)]

mod explain; // the machine that explains a script
mod explained; // a script, and what was told of it
mod rooms; // what lines are run in
mod telling; // a line behind the header
mod writing; // notes and report of a line

pub use explain::Explain;
pub use explained::Explained;
pub use rooms::Rooms;
