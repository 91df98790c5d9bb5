use acq_core::Acq;
use buffer_words::Pass;
use gev_lanes::LaneEnds;

/// What the thread of a lane works with.
#[derive(Drop)]
pub struct LaneTools {
    /// The pass that claims and fills the lane's buffers.
    pub pass: Pass,
    /// The lane's ends of its queues.
    pub ends: LaneEnds,
    /// The receiver that assembles the lane's blocks.
    pub acq: Acq,
}
