//! Packets that a receiver asks for again on a control link on which a client's commands go too (GigE Vision 2.0 and 1.x,
//! GVCP PACKETRESEND command).
//!
//! A request keeps the receiver's number, with the bit 0x8000 set in it, so that a camera that knows repeated commands by
//! their numbers doesn't take it for one of the client's, and has the form of the stream's identifiers.
//! `specs/Requests.antt` says what a request is on such a link. No call takes memory.
#![tactic(auto)]

mod id_mode; // the identifiers of a stream
pub mod laws; // laws of the definitions, as contracts
mod sending; // requests, sent
mod writing; // requests, written

pub use id_mode::IdMode;
pub use sending::send_control_request;
pub use writing::write_control_request;
