//! The lines of a replay script that feed the acquisition, told on a tape: `stop`, `t` and `d`.
//!
//! Each line does what `script_replay` says of it, and the tape then stands for the notes that `script_trace`
//! says of it: what became of a datagram, which block was opened with which buffer, which blocks retired and why,
//! which images gave way to others, and what was asked for.
#![tactic(auto)]

mod asking; // requests that are written, and put on the tape
mod hearing; // datagrams that are received, and what became of them
mod lines; // the lines `stop`, `t` and `d`
mod retired; // blocks that retire, and are put on the tape

pub use lines::{datagram, stop, tick};
