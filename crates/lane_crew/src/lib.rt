//! The acquisition's workers of a live run with several lanes: a lane, which serves the cells that the reader gives
//! it with an acquisition machine of its own, and the worker that sets the camera up and runs the reader and the
//! lanes as threads.
//!
//! `specs/Cells.antt` says what becomes of one cell, `specs/Lane.antt` of all up to the end. `specs/Crew.antt` has
//! what the whole worker did, `specs/Did.antt` what each lane did, and `specs/Kinds.antt` the kinds of their acts on
//! the shared board.
#![tactic(auto)]

mod cell_serving; // one cell
mod homing; // passes are joined, and queues' ends meet
mod lane_running; // all cells of a lane
mod lane_tools; // what the thread of a lane works with
mod lanes_reader; // what reader and lanes work with
mod laws; // a law of the lanes' parts, as a contract
mod putting; // a lane's requests, to the reader
mod reading; // the reader, from the setup to its end
mod serving; // the lanes as threads
mod summing; // what all lanes counted
mod threads; // reader and lanes as threads, and the stop

pub use lane_running::lane;
pub use lane_tools::LaneTools;
pub use lanes_reader::LanesReader;
pub use laws::lanes_parts_stay;
pub use threads::read_by_lanes;
