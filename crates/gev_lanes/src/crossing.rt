//! Threads share the lanes, and their ends go from one to another.
use crate::ends::{LaneEnds, Lanes, ReaderEnds};

fn is_shared<T: Sync>(_value: &T) {}

fn crosses<T: Send>(_value: &T) {}

/// Does nothing: threads may share the lanes.
pub fn lanes_are_shared(lanes: &Lanes) {
    is_shared(lanes);
}

/// Does nothing: the ends of the lanes' queues may go to another thread.
pub fn lane_ends_cross(reader: &ReaderEnds, lane: &LaneEnds) {
    crosses(reader);
    crosses(lane);
}
