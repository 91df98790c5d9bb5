//! The lines of notes, each by one call that adds it with its line feed.
//!
//! A call takes memory only where `out` has to grow. After `NoMemory` some front of the line was added.
#![tactic(auto)]

mod at; // where a note stands
mod basics; // simple parts of a line
mod block_counts; // blocks by kind
mod datagram_notes; // notes of datagrams
mod frame_notes; // notes of blocks and frames
mod laws; // laws of the definitions, as contracts
mod piece; // a part of a line
mod writing; // lines from their parts

pub use at::At;
pub use block_counts::BlockCounts;
pub use datagram_notes::{note_foreign, note_idle, note_ignored, note_unwidened};
pub use frame_notes::{
    note_absent, note_ask, note_blocks, note_done, note_drop, note_first, note_leader, note_open,
    note_unbuffered,
};
pub use laws::ended_words_are_outcomes;
pub use piece::Named;
