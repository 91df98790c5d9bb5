//! Rests of a thread that finds nothing to do.
//!
//! That a rest ends, and how long it takes, is the system's: no clause speaks of it.
#![tactic(auto)]

mod rest; // rests, and how they grow

pub use rest::{Rest, SHORT, rest_for};
