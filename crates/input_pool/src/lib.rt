//! The input buffer pool of a data stream on the board that threads share (EMVA GenTL: input buffer pool).
#![tactic(auto)]

mod calls;

pub use calls::{claim, put_back, queue, sweep};
