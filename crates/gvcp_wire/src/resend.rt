/// What PACKETRESEND with extended identifiers asks for: a range of packets of one block.
#[derive(Clone, Copy, Debug, PartialEq, Eq)]
pub struct Resend {
    /// The stream channel, from 0 on.
    pub channel: u16,
    /// The packet id of the first packet.
    pub first: u32,
    /// The packet id of the last packet. No call tests that it isn't below the first.
    pub last: u32,
    /// The block id.
    pub block: u64,
}
