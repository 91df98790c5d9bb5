//! Lanes between the reader of a live run and the threads that assemble its blocks: each lane has three queues
//! of two ends, of free cells, of cells with datagrams, and of requests.
//!
//! A queue stands between two threads, with an end that gives and an end that takes: each end knows the list of
//! what it gave or took, and how often it found the queue full or empty; and where the two meet, what was taken is
//! the front of what was given. `specs/LineRule.antt` has the rule of one queue, `specs/LineEnds.antt` its ends.
//!
//! `specs/Sides.antt` has the lanes' ends, how they are when they are new, and what is known where they meet;
//! `specs/Acts.antt` what the reader and a lane do at them, `specs/Messages.antt` what a cell says.
#![tactic(auto)]

mod cell; // what goes to a lane
mod crossing; // lanes are shared, ends cross to threads
mod ends; // the lanes and their ends
mod lane_calls; // what a lane does at its ends
mod lanes; // all lanes, how they are made and meet
mod line; // one queue and its public calls
mod line_crossing; // queues are shared, ends cross to threads
mod line_ends; // the ends of one queue
mod line_log; // what an end of a queue may do and has done
mod line_rule; // the rule of one queue
mod making; // one new lane
mod parts; // the queues and ends of one lane
mod reader_acts; // what the reader does at one lane's queues
mod reader_calls; // the same by the lane's number
mod saying; // cells with a message

pub use cell::{Cell, CellKind};
pub use crossing::{lane_ends_cross, lanes_are_shared};
pub use ends::{LaneEnds, Lanes, ReaderEnds};
pub use line::Line;
pub use line_crossing::{ends_cross, line_is_shared};
pub use line_ends::{Giver, Start, Taker};
