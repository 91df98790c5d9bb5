/// What a claim got.
#[derive(Clone, Copy, Debug, PartialEq, Eq)]
pub struct Got {
    /// The place of the buffer.
    pub place: u8,
    /// Where another image was dropped for it, the block of that image's record, 0 of the empty record.
    pub dropped: Option<u64>,
}
