/// What becomes of a packet of the block.
#[derive(Clone, Copy, Debug, PartialEq, Eq)]
pub enum Verdict {
    /// It is kept: it fits, no kept packet has its id, and it is no second trailer.
    Kept,
    /// It fits, and its id or a trailer was kept before.
    Repeat,
    /// Its status, its id or its length doesn't fit.
    Misfit,
    /// It is the camera's word that it can't send a packet again.
    Notice,
}
