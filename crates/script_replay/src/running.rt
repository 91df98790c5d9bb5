use crate::fill_counts::FillCounts;
use acq_core::Acq;
use board_model::{Mode, PlainBoard};
use gentl_handles::{Handle, Tree};

/// What a script runs on behind its header, and what its last line counts. Each count stands still at its
/// type's end.
#[derive(Drop)]
pub struct Running {
    /// The board of the stream that is open from the start.
    pub board: PlainBoard,
    /// The receiver of that stream.
    pub acq: Acq,
    /// The open handles.
    pub tree: Tree,
    /// That stream's handle.
    pub stream: Handle,
    /// What the receiver filled into the output, and dropped out of it.
    pub counts: FillCounts,
    /// Buffers that were handed out.
    pub taken: u64,
    /// Datagrams that came while the stream was stopped.
    pub idle: u64,
    /// What is done with buffers that wait.
    pub mode: Mode,
    /// Whether a line set the mode.
    pub told_mode: bool,
}
