//! Packets of a stream (GVSP) and control messages (GVCP), read and written.
//!
//! ```
//! match parse(&bytes) {
//!     Ok(packet) => println!(rt; "block {} has packet {}", packet.head().block, packet.head().id)?,
//!     Err(refusal) => println!(rt; "{refusal}")?,
//! }
//! ```

pub use gvcp_wire::{
    Ack, Command, CommandHead, ControlError, Resend, Status, parse_ack, parse_command,
    read_pending, read_resend, write_ack, write_command, write_discovery, write_resend,
};
pub use gvsp_std::{StdError, write_resend_std};
/// `Widener` makes datagrams with standard identifiers such with extended ones.
///
/// ```
/// let mut widener = Widener::new();
/// let mut wide = [0; 9012];
/// match widener.widen(&bytes, &mut wide) {
///     Ok(len) => println!(rt; "{:?}", parse(&wide[..len]))?,
///     Err(refusal) => println!(rt; "{refusal}")?,
/// }
/// ```
pub use gvsp_std::Widener;
pub use gvsp_wire::{
    Head, LeaderInfo, Packet, WireError, parse, write_leader, write_notice, write_payload,
    write_trailer,
};
