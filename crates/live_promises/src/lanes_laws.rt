//! Laws of all live runs with lanes. Each function only carries its statement.

ghost use Rattle.live_promises.specs.LanesLaws.{LaneRunsKeepPromises, LanesPacketsAreSent};

/// Each live run with lanes keeps the headline, with the lanes as its acquirers, and what it handed out by that headline
/// the application took; and each buffer that it handed out holds a block of one of them, and its frame where all
/// datagrams were sent from one map of frames.
pub fn lane_runs_keep_promises()
    ensures { LaneRunsKeepPromises }
{}

/// Where all packets that the reader received were sent from one map of frames, so were those that a lane was told.
pub fn lanes_packets_are_sent()
    ensures { LanesPacketsAreSent }
{}
