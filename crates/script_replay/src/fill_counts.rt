//! What the acquisition filled into the output and dropped out of it, counted.

/// What the acquisition filled into the output, how many of these were marked complete, and what it dropped.
/// Each count stands still at its type's end.
#[derive(Clone, Copy, Debug, PartialEq, Eq)]
pub struct FillCounts {
    /// Buffers that were filled into the output.
    pub fills: u64,
    /// Those of them with a complete record.
    pub complete: u64,
    /// Buffers that waited in the output and were dropped, for a new block or before a fill.
    pub dropped: u64,
}
