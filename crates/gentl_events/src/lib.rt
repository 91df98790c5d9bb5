//! The event of new buffers of a data stream on the board that threads share, EVENT_NEW_BUFFER of EMVA
//! GenTL: a wait for a filled buffer, the kill that ends one, and the flush of what waits.
//!
//! `share_board` has two threads share one board by the public calls alone; its contract says what theirs say of all
//! that was done.
#![tactic(auto)]

mod calls;
mod share; // one buffer from thread to thread
mod wait;
mod work; // what the two threads do

pub use calls::{event_flush, event_kill};
pub use share::share_board;
pub use wait::event_get;
