/// What a camera answers where a range of packets of a block is asked for again (GigE Vision 2.0,
/// PACKETRESEND command).
#[derive(Clone, Copy, Debug, PartialEq, Eq)]
pub enum Reply {
    /// These packets of the held frame, by their ids. The last is no higher than the trailer's.
    Packets { first: u32, last: u32 },
    /// One notice with this status: why the packets can't be sent.
    Notice(u16),
}
