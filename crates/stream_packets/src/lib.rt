//! The packets of an image stream as plain values, and which of them carry a frame.
//!
//! `specs/Packets.antt` has the values, `specs/FramePackets.antt` the packets of a frame, and
//! `specs/Sent.antt` what a camera that sends a map of frames may send. The types here are those
//! that both the values and the parser above them use.
#![tactic(auto)]

mod fields;
mod leaders;

pub use fields::{Head, LeaderInfo};
pub use leaders::leader_info;
