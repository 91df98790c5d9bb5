//! The host's control side: one command outstanding, sent at most three times, with one outcome, and a
//! heartbeat that keeps the control (GigE Vision 2.0, GVCP).
//!
//! The definition is the machine of the crate `client_machine`; each call of a client is one of its
//! events. `register_write` gives the body of a WRITEREG, and `setup_write` those that make a camera send its stream.
#![tactic(auto)]

mod client; // the client and its public calls
mod sending; // the outstanding command
mod setup; // WRITEREG of one register, and the commands that make a camera send
mod steps; // the tests and changes of a step

pub use client::Client;
pub use client_machine::Outcome;
pub use client_machine::numbers::SETUP_SIZE;
pub use setup::{register_write, setup_write};
