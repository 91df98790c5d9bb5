//! The board as plain data: the machine of `board_machine`, run by one caller at a time, with its buffers.
//!
//! `plain_claim_for` and `plain_fill_for` claim and fill for an acquisition in each buffer handling mode (GenICam
//! SFNC, StreamBufferHandlingMode). A buffer that is taken here is dropped: its image is never handed out. No call
//! takes memory.
#![tactic(auto)]

mod board; // the board's state
mod calls; // the calls on stream and event, a file for each kind
mod gone; // what a claim or a fill dropped
mod hands; // the places in each actor's hands
mod looks; // what is read without an entry
mod places; // a list of distinct places
mod plain; // claims and fills in each mode
mod steps; // the board's steps, by the word on which they are made

pub use board::PlainBoard;
pub use board_calls::{FillEnd, Mode, TakeEnd};
pub use gone::Gone;
pub use plain::{plain_claim_for, plain_fill_for};
