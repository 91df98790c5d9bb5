/// How the application of a run over a camera's frames ended.
#[derive(Clone, Copy, Debug, PartialEq, Eq)]
pub enum HandedEnd {
    /// It handed out as many buffers as are wanted.
    Enough,
    /// No buffer was left after the run was over.
    Over,
    /// The input that it watched has ended.
    InputEnded,
    /// A write failed. The buffer's text may be cut; the buffer was given back and queued all the same.
    WriteFault,
    /// Memory ran out before anything of the last buffer's text was written. The buffer was given back and queued.
    NoMemory,
}

/// What the application did.
#[derive(Clone, Copy, Debug, PartialEq, Eq)]
pub struct HandedOut {
    /// How many buffers it took; with `WriteFault` and `NoMemory` the last one's text wasn't written, or not all of it.
    pub taken: u32,
    /// How many of them were complete.
    pub complete: u32,
    /// How it ended.
    pub end: HandedEnd,
}
