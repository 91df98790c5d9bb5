/// An image that gave way to another.
#[derive(Clone, Copy, Debug, Default, PartialEq, Eq)]
pub struct Gone {
    /// The place of its buffer.
    pub place: u8,
    /// The block of its record, 0 of the empty record.
    pub block: u64,
}
