/// How a turn of the camera's worker ended.
#[derive(Clone, Copy, Debug, PartialEq, Eq)]
pub enum ServeTurn {
    /// All that the turn has to send was sent. It made the frame with this block id, and none where the channel is
    /// closed.
    GoesOn(Option<u64>),
    /// A send failed.
    Fault,
    /// There was no memory for the bytes of a frame.
    NoMemory,
}

/// How the camera's worker ended.
#[derive(Clone, Copy, Debug, PartialEq, Eq)]
pub enum ServeEnd {
    /// Its look at the run word found that the acquisition doesn't run.
    Stopped,
    /// A call of the link failed.
    Fault,
    /// There was no memory for the bytes of a frame.
    NoMemory,
    /// It made all its turns.
    Spent,
}
