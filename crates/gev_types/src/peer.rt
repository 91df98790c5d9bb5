/// Where a datagram came from or goes to: an IPv4 address as a number, most significant byte
/// first, and a UDP port.
#[derive(Clone, Copy, Debug, PartialEq, Eq)]
pub struct Peer {
    /// The IPv4 address.
    pub address: u32,
    /// The UDP port.
    pub port: u16,
}
