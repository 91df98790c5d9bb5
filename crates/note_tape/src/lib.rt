//! What is told of the lines of a replay script, as plain data: for each note what it is printed from.
//!
//! `specs/Telling.antt` says which note each of these stands for. The list of what is told of a line is printed,
//! and counted for the last note of the script.
//!
//! The calls `tape_..` put on a tape what an acquisition's calls answer: what became of a datagram, which blocks
//! were never opened, how a block retired, and what was asked for. Each says which of the notes of `script_trace`
//! it puts there.
#![tactic(auto)]

mod asked; // packets that are asked for
mod counting; // what is told of blocks, counted
mod gaps; // blocks that retire, and gaps between them
mod heard; // what becomes of a datagram
mod laws; // laws of the definitions, as contracts
mod printing; // what is told, printed
mod tape_laws; // what is told of rounds
mod told; // what is told of a line

pub use asked::tape_asked;
pub use counting::none_counted;
pub use gaps::{tape_done, tape_dropped, tape_gap};
pub use heard::tape_need;
pub use laws::tallies_are_counted;
pub use printing::print;
pub use tape_laws::rounds_are_told;
pub use told::Told;
