/// What became of a datagram that was given to a receiver.
#[derive(Clone, Copy, Debug, PartialEq, Eq)]
pub struct Heard {
    /// Whether its packet was kept.
    pub kept: bool,
    /// The block that it opened, else 0.
    pub opened: u64,
    /// The place that was claimed for that block, where a buffer was there.
    pub claim: Option<u8>,
}
