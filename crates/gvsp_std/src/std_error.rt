use thiserror::Error;

/// Why a datagram isn't widened: the first reason in this order.
#[derive(Clone, Copy, Debug, PartialEq, Eq, Error)]
pub enum StdError {
    /// The datagram has fewer than the 8 bytes of a header. Holds its length.
    #[error("a datagram of {0} bytes ends in its header")]
    Short(u32),
    /// The header has extended identifiers already.
    #[error("extended identifiers")]
    Extended,
    /// The block id is 0.
    #[error("block id 0")]
    Zero,
    /// The block near the greatest one would be below 1. Holds the block id.
    #[error("block id {0} names a block before the first")]
    Before(u16),
}
