/// Which identifiers the packets of a stream have.
#[derive(Clone, Copy, Debug, PartialEq, Eq)]
pub enum IdMode {
    /// Block ids of 16 bits and packet ids of 24 (GigE Vision 1.x, GVSP packet header).
    Standard,
    /// Block ids of 64 bits and packet ids of 32 (GigE Vision 2.0, GVSP packet header).
    Extended,
}
