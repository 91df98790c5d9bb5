/// The numbers of a replay's last line.
#[derive(Clone, Copy, Debug, Default, PartialEq, Eq)]
pub struct EndCounts {
    /// Buffers that the application took.
    pub taken: u64,
    /// Blocks that retired into the output.
    pub fills: u64,
    /// Those of them with a complete record.
    pub complete: u64,
    /// Blocks for which the pool had no buffer.
    pub underrun: u64,
    /// Packet resend commands that were asked for.
    pub requests: u64,
    /// Datagrams that aren't stream packets.
    pub foreign: u64,
    /// Packets of blocks that had retired.
    pub late: u64,
    /// Packets whose id was kept before.
    pub repeat: u64,
    /// Packets that don't fit their block.
    pub misfit: u64,
    /// Packets of blocks that have no buffer.
    pub starved: u64,
    /// Notices that a packet can't be resent.
    pub notice: u64,
    /// Datagrams that came while the stream was stopped.
    pub idle: u64,
}
