use gev_types::Buf;

/// A block that retired with its buffer.
#[derive(Drop)]
pub struct Retired {
    /// The buffer's place, 0 to 14.
    pub place: u8,
    /// The buffer, with what the block gave.
    pub buf: Buf,
}
