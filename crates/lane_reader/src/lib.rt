//! The reader of a live run with several lanes: it brings what comes to the block's lane and the moment to each
//! lane, sends the lanes' requests, and talks to the camera.
//!
//! `specs/LanesTurns.antt` has what a turn does on all lanes, as a relation between the reader's ends before and
//! after it, `specs/Turned.antt` the whole turn, and `specs/Reads.antt` all turns and the end. `specs/Brought.antt`
//! says what is brought to one lane, and `specs/Laws.antt` what is true of it, and that a lane takes all of it.
#![tactic(auto)]

mod asking; // the lanes' requests, to the camera
mod ending; // the end, to the lanes
mod hearing; // a datagram, to its lane
mod laws; // laws of what is brought to a lane, as contracts
mod lent; // what is lent to the reader
mod reading; // all turns
mod ticking; // the moment, to the lanes
mod turning; // one turn

pub use asking::ask_lanes;
pub use ending::end_lanes;
pub use hearing::{bring_received, bring_to_lane};
pub use laws::{
    a_lane_takes_all, first_cells_are_brought, lanes_take_turns, only_misses_leave_out,
    turns_bring_what_came,
};
pub use reading::read_lanes;
pub use ticking::tick_lanes;
