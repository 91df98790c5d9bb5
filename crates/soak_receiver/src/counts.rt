//! What a host counts.

/// What a host counted since it began. Each count stands still at its type's end.
#[derive(Clone, Copy, Debug, PartialEq, Eq)]
pub struct SoakCounts {
    /// Buffers that the application took.
    pub taken: u64,
    /// Those of them with a complete record.
    pub complete: u64,
    /// Those without.
    pub incomplete: u64,
    /// Blocks for which the pool had no buffer.
    pub underrun: u64,
    /// Packet resend commands that were asked for.
    pub requests: u64,
}
