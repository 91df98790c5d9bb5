use stream_packets::{Head, LeaderInfo};

/// A packet of an image stream, as it was read from a datagram (GigE Vision 2.0, GVSP packets with
/// extended identifiers).
#[derive(Clone, Copy, Debug, PartialEq, Eq)]
pub enum Packet<'a> {
    /// What the image is that the block carries.
    Leader(Head, LeaderInfo),
    /// Bytes of the image, at least one. They are the datagram's, lent.
    Payload(Head, &'a [u8]),
    /// The end of the block, with the number of lines.
    Trailer(Head, u32),
    /// The camera's word that it can't send the packet with this id again.
    Notice(Head),
}
