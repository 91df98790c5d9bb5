/// What a recorder keeps of a receiver's turn, beside the datagram that came in it.
#[derive(Clone, Copy, PartialEq, Eq)]
pub struct Mark {
    /// The moment of the turn's tick, in milliseconds.
    pub moment: u64,
    /// The block that the turn opened, with a buffer or without, else 0.
    pub opened: u64,
    /// Whether the claim for that block got a buffer; false where none was made.
    pub claimed: bool,
}
