//! The stream channel of a camera: the frames that it holds and the packets that wait to be sent (GigE
//! Vision 2.0, GVSP and PACKETRESEND).
//!
//! `CameraStream` is the part of the camera of `camera_machine` that its stream works on. A packet that
//! waits is a packet id of a held frame: it's written when it's given, straight from the frame's
//! pixels, and nothing is copied before.
#![tactic(auto)]

mod queue; // the ranges of packet ids that wait
mod span; // one such range
mod stream; // the stream channel and its public calls
mod writing; // packets as bytes

pub use span::{QueuedReply, Span};
pub use stream::{CameraStream, PACKET_ROOM};
