use gev_types::Peer;

/// What is wanted of a camera's stream.
#[derive(Clone, Copy, Debug, PartialEq, Eq)]
pub struct StreamWish {
    /// The address and the port of this machine to which it goes.
    pub receiver: Peer,
    /// The size of its packets in bytes, 576 to 9000, with the headers of IP, UDP and GVSP.
    pub packet_size: u16,
}
