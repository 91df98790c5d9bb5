use block_assembly::Account;
use gev_types::Cause;

/// What a block with a buffer gave, beside its image.
#[derive(Drop)]
pub struct Held {
    /// The number of the buffer's place.
    pub place: u8,
    /// What is known of the block's packets.
    pub account: Account,
}

/// A block that retired.
#[derive(Drop)]
pub struct Ended {
    /// The block id.
    pub block: u64,
    /// One above the block that retired before it, 1 where none has since the acquisition began; None
    /// where block ids are used up.
    pub floor: Option<u64>,
    /// Why it retired.
    pub cause: Cause,
    /// What it gave; None where it had no buffer.
    pub held: Option<Held>,
}
