/// What a turn does.
#[derive(Clone, Copy, Debug, PartialEq, Eq)]
pub enum TurnKind {
    /// It serves what came.
    Serving,
    /// It serves what came, and then makes a frame where the stream channel is open.
    Framing,
}

/// What a turn that was made to its end tells.
#[derive(Clone, Copy)]
pub(crate) struct Made {
    /// What the clock told, in milliseconds.
    pub moment: u64,
    /// Whether its receive gave nothing.
    pub is_quiet: bool,
    /// The block id of its frame, if it made one.
    pub block: Option<u64>,
}

/// Why a turn wasn't made to its end.
#[derive(Clone, Copy)]
pub(crate) enum Cut {
    /// A call of the link failed.
    Fault,
    /// There was no memory for the bytes of a frame.
    NoMemory,
}
