/// Which block ids a camera's stream has (GigE Vision 2.0, GVSP packet header).
#[derive(Clone, Copy, Debug, PartialEq, Eq)]
pub enum BlockIds {
    /// Of 16 bits.
    Standard,
    /// Of 64 bits.
    Extended,
    /// No leader came, so it isn't known.
    Unknown,
}

/// The numbers of the last line of a run over a camera's frames.
#[derive(Clone, Copy, Debug, PartialEq, Eq)]
pub struct ReceiveCounts {
    /// How many frames were asked for.
    pub frames: u32,
    /// How many buffers were handed out.
    pub taken: u32,
    /// How many of them were complete.
    pub complete: u32,
    /// The most bytes of a packet's payload; 0 before the first leader.
    pub p: u32,
    /// The bytes of each buffer; 0 before the first leader.
    pub bytes: u32,
    /// The block ids of the stream.
    pub ids: BlockIds,
    /// Blocks for which the pool had no buffer.
    pub underrun: u64,
    /// Packet resend commands that were asked for.
    pub requests: u64,
    /// Datagrams that aren't stream packets.
    pub foreign: u64,
    /// Packets of blocks that had retired.
    pub late: u64,
    /// Packets whose id was kept before.
    pub repeat: u64,
    /// Packets that don't fit their block.
    pub misfit: u64,
    /// Packets of blocks that have no buffer.
    pub starved: u64,
    /// Notices that a packet can't be resent.
    pub notice: u64,
    /// Datagrams from another address than the camera's.
    pub strangers: u64,
}
