//! The camera as a machine: what it is after each command, tick, frame and packet, and what it answers.
//!
//! `specs/Camera.antt` says what a camera is, `specs/Commands.antt` what a datagram does to it, and
//! `specs/Events.antt` what lists of events come to. The functions of `laws` say what follows, and
//! those of `rows` work examples through. The code is in a crate above.
#![tactic(auto)]

pub mod laws;
pub mod rows;
