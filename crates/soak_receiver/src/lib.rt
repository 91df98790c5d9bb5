//! The host of a soak run as code: the receiver of a stream, its board, and an application that takes each
//! filled buffer, tells it, returns it and queues it.
//!
//! `specs/Standing.antt` says what the code stands for: a receiver of `soak_host`, behind the lines of a
//! replay script. `specs/Moves.antt` has what a call does as such lines do it.
#![tactic(auto)]

mod counts; // what a host counts
mod hearing; // datagrams
mod laws; // laws of the definitions, as contracts
mod receiver; // the host and its public calls
mod starting; // the beginning of a host
mod taking; // what the application does
mod ticking; // moments, and their requests

pub use counts::SoakCounts;
pub use laws::{hosts_keep_promises, inputs_are_heard};
pub use receiver::SoakReceiver;
