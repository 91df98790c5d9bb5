use gvcp_wire::Status;

/// What became of writes in order, up to the first that was refused.
#[derive(Clone, Copy, PartialEq, Eq)]
pub(crate) struct Writes {
    /// How many were done.
    pub done: usize,
    /// Why the next one wasn't.
    pub refusal: Option<Status>,
    /// Whether one of them gave the sender control.
    pub has_granted: bool,
}
