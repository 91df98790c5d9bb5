/// The outstanding command, apart from its bytes.
#[derive(Clone, Copy)]
pub(crate) struct Sending {
    /// The command's code.
    pub code: u16,
    /// The request number.
    pub req: u16,
    /// How many bytes the command has.
    pub len: usize,
    /// How many sends were due so far.
    pub sends: u8,
    /// The moment at which the last of them was due, in milliseconds.
    pub sent: u64,
    /// How many milliseconds after it the next step comes, at most 2^64.
    pub limit: u128,
    /// Whether the bytes of that send weren't taken yet.
    pub waits: bool,
}
