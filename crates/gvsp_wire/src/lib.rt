//! The packets of an image stream on the wire: GVSP with extended identifiers.
//!
//! `specs/Wire.antt` says which bytes are which packet, and which refusal they have where they are
//! none. `specs/Reading.antt` computes the same answer, `specs/Plain.antt` has the one plain spelling
//! of each packet, which the writers write, and `specs/View.antt` says what packet value a lent packet
//! stands for.
#![tactic(auto)]

mod flags; // the bits of a header
mod form; // what a packet carries
mod header; // the header, read
pub mod laws; // laws of the definitions, as contracts
mod packet; // a packet
mod packet_parts; // its parts
mod reading; // what is behind the header, read
mod wire_error; // why there is no packet
mod writing; // packets, written

pub use flags::HeadFlags;
pub use packet::Packet;
pub use reading::parse;
pub use stream_packets::{Head, LeaderInfo};
pub use wire_error::WireError;
pub use writing::{write_leader, write_notice, write_payload, write_trailer};
