use gvcp_wire::Status;

/// What executing a register or memory command came to. The body of its acknowledge stands at the front
/// of a buffer.
#[derive(Clone, Copy, PartialEq, Eq)]
pub(crate) struct Done {
    /// How it went.
    pub status: Status,
    /// How many bytes the acknowledge's body has.
    pub len: usize,
    /// Whether it gave the sender control.
    pub has_granted: bool,
}
