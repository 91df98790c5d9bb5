/// How a turn ended, and of a buffer that came whether it's complete.
#[derive(Clone, Copy)]
pub(crate) enum TurnEnd {
    /// A buffer came, its text was written, and it was given back.
    Handed(bool),
    /// A buffer came and was given back, and writing its text failed.
    WriteFault(bool),
    /// A buffer came and was given back, and its text wanted memory.
    NoMemory(bool),
    /// No buffer came, and the run goes on.
    Idle,
    /// No buffer came, and the run is over.
    Over,
}
