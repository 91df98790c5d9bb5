/// Where a note stands.
#[derive(Clone, Copy, Debug, PartialEq, Eq)]
pub struct At {
    /// The number of the script's line, from 1 on.
    pub line: u32,
    /// The greatest moment that was told up to this line, in milliseconds.
    pub moment: u64,
}
