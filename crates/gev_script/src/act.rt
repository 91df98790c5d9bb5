/// One step of the board that a script's `step` line makes.
#[derive(Clone, Copy, Debug, PartialEq, Eq)]
pub enum Act {
    /// Takes a queued buffer into the hands, by the word of its place.
    Grab,
    /// Lays a buffer aside, out of every list.
    Lay,
    /// Puts a buffer into the pool.
    Pool,
    /// Puts a buffer into the output, with the empty record.
    Fill,
    /// Takes the lowest place of the pool.
    Claim,
    /// Takes the oldest buffer of the output.
    Take,
    /// Takes all of the pool.
    SweepPool,
    /// Takes all of the output.
    SweepOut,
    /// Sets the close mark.
    Close,
}
