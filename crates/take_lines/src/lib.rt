//! Where the `take` lines of a script stand that is written as it's played.
//!
//! A `Player` is an acquisition that is told what a script's lines tell. It answers the places of the buffers that
//! come back at each, in order: so many `take` lines follow, which `add_takes` adds to the text. `specs/Players.antt`
//! says which places those are.
#![tactic(auto)]

mod lines;
mod player;
mod turning;

pub use acq_core::{AcqConfig, Need};
pub use lines::{add_line, add_takes};
pub use player::Player;
