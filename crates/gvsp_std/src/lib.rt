//! Standard identifiers: the image stream of cameras of version 1.x (GigE Vision 1.x, GVSP), whose
//! packets have a header of 8 bytes and block ids of 16 bits.
//!
//! A [`Widener`] makes the datagram with extended identifiers of each, which the parser above reads,
//! and `write_resend_std` asks such a camera for packets again. `specs/Standard.antt` says which bytes
//! are which packet, `specs/Blocks.antt` which block an id names, and `specs/Widening.antt` what a
//! datagram becomes. No call takes memory.
#![tactic(auto)]

mod blocks; // which block an id names
pub mod laws; // laws of the definitions, as contracts
mod resending; // packet resends, written
mod std_error; // why a datagram isn't widened
mod widener; // the widener and its public calls
mod writing; // the wide datagram

pub use blocks::narrow;
pub use resending::write_resend_std;
pub use std_error::StdError;
pub use widener::Widener;
