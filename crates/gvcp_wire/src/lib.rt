//! The messages of GVCP, the control protocol of GigE Vision 2.0: commands and acknowledges as
//! bytes and as values, both ways, and the bodies of those that are no register or memory access:
//! PACKETRESEND, DISCOVERY and PENDING.
//!
//! `specs/Control.antt` says which bytes are which command and which bytes are none, and
//! `specs/Answer.antt` says the same of acknowledges. `specs/Reading.antt` computes what a parser
//! gives, and the functions of `laws` tie the two. `specs/Bodies.antt`, `specs/BodyReading.antt` and
//! `body_laws` are the same for bodies. No call takes memory: bodies are lent.
#![tactic(auto)]

mod body_laws; // laws of bodies, as contracts
mod body_reading; // bodies, read
mod body_writing; // bodies, written
pub mod codes; // the standard's numbers
mod flags; // the flag bits of a command
mod laws; // laws of the definitions, as contracts
mod message; // commands, acknowledges and refusals
mod reading; // messages, read
mod resend; // a range of packets
mod status; // status codes
mod writing; // messages, written

pub use body_laws::{
    pending_reading_is_the_relation, resend_reading_is_the_relation, written_discovery_is_read,
    written_pending_is_read, written_resend_is_read,
};
pub use body_reading::{read_pending, read_resend};
pub use body_writing::{write_discovery, write_resend};
pub use flags::{CommandFlags, has_extended_ids};
pub use laws::{
    ack_reading_is_the_relation, bytes_are_one_ack_or_refused, bytes_are_one_command_or_refused,
    codes_are_the_standards, command_reading_is_the_relation, written_ack_is_read,
    written_command_is_read,
};
pub use message::{Ack, Command, CommandHead, ControlError};
pub use reading::{parse_ack, parse_command};
pub use resend::Resend;
pub use status::Status;
pub use writing::{write_ack, write_command};
