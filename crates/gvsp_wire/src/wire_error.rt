use thiserror::Error;

/// Why a datagram is no packet of the stream: the first reason in the order of reading.
#[derive(Clone, Copy, Debug, PartialEq, Eq, Error)]
pub enum WireError {
    /// The header or the packet's form needs more bytes. Holds the datagram's length, below 56.
    #[error("a datagram of {0} bytes ends too early")]
    Short(u32),
    /// The header has the standard identifiers of version 1.x.
    #[error("standard identifiers")]
    Standard,
    /// The packet format isn't leader, trailer or payload. Holds its four bits.
    #[error("unknown packet format {0}")]
    Format(u8),
    /// The block id is 0.
    #[error("block id 0")]
    ZeroBlock,
    /// A leader whose packet id isn't 0, or another packet whose id is 0. Holds the id.
    #[error("packet id {0} doesn't fit the packet format")]
    BadId(u32),
    /// A leader or trailer of a payload that isn't an image. Holds the payload type.
    #[error("payload type {0:#06x} is no image")]
    PayloadType(u16),
    /// The leader's image has no bytes, or more than 64 MiB.
    #[error("the image has no bytes or more than 64 MiB")]
    FrameSize,
}
