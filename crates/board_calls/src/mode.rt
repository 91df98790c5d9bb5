/// What a new block does with buffers that wait for a slow application (GenICam SFNC,
/// StreamBufferHandlingMode).
#[derive(Clone, Copy, Debug, PartialEq, Eq)]
pub enum Mode {
    /// Waiting buffers stay. A block that finds the input pool empty gets none.
    OldestFirst,
    /// A block that finds the input pool empty gets the buffer that waits longest.
    OldestFirstOverwrite,
    /// The same, and a filled buffer sends those that wait back to the input pool, so that it waits
    /// alone.
    NewestOnly,
}
