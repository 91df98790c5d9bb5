//! The tapes and the scripts of recorded runs.

pub mod scripts;
pub mod tapes;
