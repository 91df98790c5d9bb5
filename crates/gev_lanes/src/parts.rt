use crate::cell::Cell;
use crate::line::Line;
use crate::line_ends::{Giver, Start, Taker};

/// The three queues of a lane: the free cells, the cells on their way to the lane, and the lane's requests.
#[derive(Drop)]
pub(crate) struct LaneQueues {
    pub(crate) free: Line<Cell>,
    pub(crate) cells: Line<Cell>,
    pub(crate) requests: Line<[u8; 28]>,
}

/// The reader's ends of a lane's queues, the cell that is kept for the lane's end until it is told, and the moment of
/// the last cell that the reader gave, 0 before the first.
#[derive(Drop)]
pub(crate) struct ReaderLane {
    pub(crate) free: Taker<Cell>,
    pub(crate) cells: Giver<Cell>,
    pub(crate) requests: Taker<[u8; 28]>,
    pub(crate) kept: Option<Cell>,
    pub(crate) last: u64,
}

/// The lane's ends of its queues.
#[derive(Drop)]
pub(crate) struct LaneHands {
    pub(crate) free: Giver<Cell>,
    pub(crate) cells: Taker<Cell>,
    pub(crate) requests: Giver<[u8; 28]>,
}

/// Both ends of a lane's queues, before they part.
#[derive(Drop)]
pub(crate) struct LaneStarts {
    pub(crate) free: Start<Cell>,
    pub(crate) cells: Start<Cell>,
    pub(crate) requests: Start<[u8; 28]>,
}
