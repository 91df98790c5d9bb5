use frame_writing::ReceiveCounts;
use gev_status::Status;

/// How a run went so far.
#[derive(Clone, Copy)]
pub(crate) struct Ran {
    /// The answer so far.
    pub(crate) status: Status,
    /// Whether the camera let its controller go. The answer doesn't tell it where a cause goes before that.
    pub(crate) lost: bool,
    /// The numbers of the last line so far.
    pub(crate) counts: ReceiveCounts,
}
