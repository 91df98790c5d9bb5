//! The types of GenTL's data stream calls: ownership words, buffer ids, and errors with their codes.
#![tactic(auto)]

mod buffer_id;
mod errors;
mod word;

pub use buffer_id::BufferId;
pub use errors::{GcError, Shown};
pub use word::{State, Word};
