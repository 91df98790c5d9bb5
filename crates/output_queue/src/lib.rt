//! The output buffer queue of a data stream on the board that threads share (EMVA GenTL: output buffer
//! queue).
#![tactic(auto)]

mod calls;

pub use board_calls::{FillEnd, TakeEnd};
pub use calls::{close, fill, sweep, take, waiting};
