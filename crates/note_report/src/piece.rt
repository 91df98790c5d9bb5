use gentl_types::BufferId;
use gev_types::{Cause, Lost, Reasons};

/// A simple part of a line.
#[derive(Clone, Copy)]
pub(crate) enum Basic<'a> {
    /// A text as it stands.
    Text(&'a [u8]),
    /// A number in decimal.
    Number(u64),
    /// Bytes, each as two lower-case hex digits.
    Hex(&'a [u8]),
}

/// What a note names of a packet that was ignored.
#[derive(Clone, Copy, Debug, PartialEq, Eq)]
pub struct Named {
    /// The block id.
    pub block: u64,
    /// The packet id.
    pub id: u32,
    /// The status.
    pub status: u16,
    /// How many bytes a payload carries; 0 of another packet.
    pub bytes: u64,
}

/// A part of a line.
#[derive(Clone, Copy)]
pub(crate) enum Piece<'a> {
    /// A text as it stands.
    Text(&'a [u8]),
    /// A number in decimal.
    Number(u64),
    /// A number in decimal, or `none`.
    NumberOrNone(Option<u64>),
    /// 1 for true, 0 for false.
    Flag(bool),
    /// A word, and a packet's block and id.
    Packet(&'a [u8], u64, u32),
    /// The field of a status.
    Status(u16),
    /// A number of two bytes in hex.
    Short(u16),
    /// A number of four bytes in hex.
    Long(u32),
    /// The numbers from the first to the last.
    Span(u64, u64),
    /// A buffer.
    Id(BufferId),
    /// A buffer, or `none`.
    IdOrNone(Option<BufferId>),
    /// Why a block retired.
    Cause(Cause),
    /// Why an image isn't whole.
    Why(Reasons),
    /// The first ranges of lost ids.
    Ids(&'a Lost),
}
