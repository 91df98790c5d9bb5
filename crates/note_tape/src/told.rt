use acq_core::Ended;
use acquisition_machine::Why;
use gentl_types::BufferId;
use gvcp_wire::Resend;
use gvsp_std::StdError;
use gvsp_wire::{LeaderInfo, WireError};
use note_report::Named;

/// What is told of a line of a replay script.
#[derive(Drop)]
pub enum Told {
    /// A datagram of so many bytes came while the stream wasn't running.
    Idle(u64),
    /// A datagram is no packet of the stream.
    Foreign(WireError),
    /// A packet was ignored.
    Ignored(Why, Named),
    /// A datagram with standard identifiers couldn't be told with extended ones.
    Unwidened(StdError),
    /// A leader of this block was kept.
    Leader(u64, LeaderInfo),
    /// The block was opened, with this buffer or none.
    Opened(u64, Option<BufferId>),
    /// Packets were asked for, in the round of this number of their block.
    Asked(Resend, u8),
    /// The first block that retires in an acquisition, where it isn't block 1.
    First(u64),
    /// None of the blocks from the first to the last was opened.
    Absent(u64, u64),
    /// An image of this block, in this buffer, gave way to another.
    Dropped(u64, BufferId),
    /// A block retired.
    Done {
        /// What the receiver tells of it.
        end: Ended,
        /// Its buffer, if it had one.
        buffer: Option<BufferId>,
        /// Whether the buffer was filled into the output.
        filled: bool,
    },
}
