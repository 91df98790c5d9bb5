//! A camera of the network, taken and let go by commands (GigE Vision 2.0, bootstrap registers: control channel
//! privilege, stream channel).
//!
//! A camera is taken and let go step by step. `specs/Steps.antt` says which steps there are and how each may end all,
//! `specs/Taking.antt` what it is that they were made, over links and clocks that tell, `specs/Laws.antt` what they
//! submit. No call takes memory.
#![tactic(auto)]

mod control_end; // why control ended
pub mod laws; // laws of the definitions, as contracts
mod leaving; // a camera is let go
mod making; // one step
mod opening; // what is done with control
mod register_write; // a value for a register
mod step; // a step
mod stream_wish; // what is wanted of a stream
mod taken; // a camera that was taken
mod taking; // a camera is taken

pub use control_end::ControlEnd;
pub use leaving::let_go;
pub use making::is_held;
pub use register_write::RegisterWrite;
pub use step::Step;
pub use stream_wish::StreamWish;
pub use taken::{NotTaken, Taken};
pub use taking::{gain_control, take_camera};
