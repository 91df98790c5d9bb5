//! Claims and fills of an acquisition in each buffer handling mode (GenICam SFNC,
//! StreamBufferHandlingMode), on the board that threads share.
//!
//! `board_calls` has the definitions and their laws, and `board_model` the same calls on the plain board. A
//! buffer that is taken here is dropped: its image is never handed out. Each call waits only while another thread
//! is in its way, and none takes memory.
#![tactic(auto)]

mod claiming;
mod filling;

pub use board_calls::Mode;
pub use claiming::claim_for;
pub use filling::fill_for;
