//! The workers of a run, each alone: the control part, the reader of a stream, a receiver, a camera and the application.

pub mod acquiring;
pub mod applying;
pub mod controlling;
pub mod laws;
pub mod ordering;
pub mod pacing;
pub mod reading;
mod receivers;
pub mod serving;
pub mod telling;
pub mod turning;
