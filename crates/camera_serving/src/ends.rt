/// How the turns ended.
#[derive(Clone, Copy, Debug, PartialEq, Eq)]
pub enum TurnsEnd {
    /// All were made, or standard input had ended where it was to be looked at.
    Over {
        /// How many frame turns were made.
        turns: u64,
        /// How many frames were made in them and sent, over all openings of the stream channel.
        frames: u64,
    },
    /// A call of the link failed.
    Fault,
    /// There was no memory for the bytes of a frame.
    NoMemory,
}

/// How a run of the camera ended.
#[derive(Clone, Copy, Debug, PartialEq, Eq)]
pub enum SimulateEnd {
    /// Its turns were over, and the line was written.
    Done,
    /// The link couldn't be bound, or a call of it failed.
    LinkFault,
    /// Writing failed.
    WriteFault,
    /// Memory ran out.
    NoMemory,
}
