//! The simulated camera: its control channel, its heartbeat, and its stream with packets sent again
//! (GigE Vision 2.0, GVCP and GVSP).
//!
//! The definition is the machine of the crate `camera_machine`; each call here is one of its events.
#![tactic(auto)]

mod acknowledge; // acknowledges as bytes
mod bodies; // the bodies of acknowledges
mod camera; // the camera and its public calls; its folder has what commands do
mod done; // what executing a command came to
mod kept; // the latest command, for its repeats
mod messages; // which commands are kept, and their bytes
mod received; // a command that came, and from whom
mod writes; // what became of writes in order

pub use acknowledge::MESSAGE_SIZE;
pub use camera::Camera;
pub use camera_stream::PACKET_ROOM;
