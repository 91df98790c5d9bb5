use stream_packets::Head;

/// Packets of a held frame that wait to be sent, by their ids.
#[derive(Clone, Copy, Debug, PartialEq, Eq)]
pub struct Span {
    /// The frame's block id.
    pub block: u64,
    /// The packet id of the packet that is given next.
    pub next: u32,
    /// The packet id of the last one, which isn't below `next`.
    pub last: u32,
}

/// What is left to be sent of the reply to one PACKETRESEND command.
#[derive(Clone, Copy, Debug, PartialEq, Eq)]
pub enum QueuedReply {
    /// These packets, again.
    Packets(Span),
    /// A notice with this header: why the packets can't be sent.
    Notice(Head),
}

// A blank for the places of a list that are free.
impl Default for QueuedReply {
    fn default() -> QueuedReply {
        QueuedReply::Packets(Span {
            block: 0,
            next: 0,
            last: 0,
        })
    }
}
