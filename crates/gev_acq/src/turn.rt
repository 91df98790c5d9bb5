/// A turn of the reader, as its journal has it.
#[derive(Clone, Copy, Debug, PartialEq, Eq)]
pub struct Turn {
    /// The turn's moment, in milliseconds.
    pub moment: u64,
    /// Whether a datagram came on the stream.
    pub datagram: bool,
    /// Whether its packet was kept.
    pub kept: bool,
    /// The block that it opened, else 0.
    pub opened: u64,
    /// The place that was claimed for that block, where a buffer was there.
    pub claim: Option<u8>,
}
