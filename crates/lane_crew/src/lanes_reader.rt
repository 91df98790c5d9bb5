use crate::lane_tools::LaneTools;
use board_calls::Mode;
use buffer_words::Pass;
use gev_acq::Host;
use gev_lanes::{Lanes, ReaderEnds};
use gev_types::Peer;

/// The reader of a run with lanes and its lanes, by what they work with.
#[derive(Drop)]
pub struct LanesReader<S, M, C> {
    /// The queues between reader and lanes.
    pub lanes: Lanes,
    /// The reader's ends of them.
    pub reader: ReaderEnds,
    /// For each lane by rising number what its thread works with.
    pub tools: Vec<LaneTools>,
    /// The reader's links, its clock and its client.
    pub host: Host<S, M, C>,
    /// The camera.
    pub camera: Peer,
    /// Where the camera is to send its stream.
    pub own: Peer,
    /// The most turns of the reader.
    pub turns: u64,
    /// What a new block does with buffers that wait for the application.
    pub mode: Mode,
}

/// What the thread of the reader works with.
#[derive(Drop)]
pub(crate) struct Reading<S, M, C> {
    /// The pass that looks at the run.
    pub(crate) pass: Pass,
    /// The reader's ends of the lanes' queues.
    pub(crate) reader: ReaderEnds,
    /// Its links, its clock and its client.
    pub(crate) host: Host<S, M, C>,
    /// The camera.
    pub(crate) camera: Peer,
    /// Where the camera is to send its stream.
    pub(crate) own: Peer,
    /// The most turns.
    pub(crate) turns: u64,
}
