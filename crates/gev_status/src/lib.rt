//! How a run of the program ends: its statuses, their exit numbers, and their texts.
#![tactic(auto)]

mod status;

pub use status::Status;
