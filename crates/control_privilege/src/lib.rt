//! Who has control of the camera (GigE Vision 2.0, control channel privilege and heartbeat): at most
//! one peer, until it releases it or its heartbeat runs out.
//!
//! `specs/Control.antt` says what each call does, and `laws` says what that comes to over any acts.
//! No call takes memory.
#![tactic(auto)]

mod holder;
pub mod laws;
mod privilege;

pub use holder::Holder;
pub use privilege::Privilege;
