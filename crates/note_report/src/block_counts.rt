/// How many blocks were told of, by kind. Each count stands still at its type's end.
#[derive(Clone, Copy, Debug, PartialEq, Eq)]
pub struct BlockCounts {
    /// Blocks that were opened.
    pub opened: u64,
    /// Those that retired with a whole image.
    pub complete: u64,
    /// Those that retired with a buffer, and without a whole image.
    pub incomplete: u64,
    /// Those that retired without a buffer.
    pub unbuffered: u64,
    /// Block ids that no block was opened for.
    pub absent: u64,
    /// Images that gave way to others.
    pub dropped: u64,
}
