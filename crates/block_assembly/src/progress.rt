use gev_types::{Buf, MAX_PACKET_ID};
use gvsp_wire::LeaderInfo;
use packet_bitmap::Bitmap;

/// How many packet ids a block may have: the ids of its bitmaps.
pub const PACKET_IDS: u32 = MAX_PACKET_ID + 1;

/// A payload with fewer bytes than a payload may have.
#[derive(Clone, Copy, PartialEq, Eq)]
pub(crate) struct Short {
    /// Its packet id.
    pub id: u32,
    /// Its length in bytes.
    pub len: u32,
}

/// What the kept trailer says.
#[derive(Clone, Copy, PartialEq, Eq)]
pub(crate) struct Ending {
    /// Its packet id.
    pub id: u32,
    /// How many lines the image has.
    pub lines: u32,
}

/// How far a block has come: its buffer, and what is counted along.
///
/// A payload's bytes are copied once, when it comes. Nothing that is counted rests on the leader or the
/// trailer, so it doesn't matter when they come.
#[derive(Drop)]
pub(crate) struct Progress {
    /// The most bytes of a payload packet.
    pub(crate) payload_size: u32,
    /// The block id.
    pub(crate) block: u64,
    /// The buffer's size in bytes.
    pub(crate) size: u32,
    /// The buffer, with the kept payloads' bytes in place.
    pub(crate) buf: Buf,
    /// The ids of the kept packets.
    pub(crate) kept: Bitmap,
    /// The ids that the camera can't send again.
    pub(crate) refused: Bitmap,
    /// What the kept leader says of the image.
    pub(crate) leader: Option<LeaderInfo>,
    /// What the kept trailer says.
    pub(crate) trailer: Option<Ending>,
    /// How many packets were kept, up to the type's end.
    pub(crate) count: u32,
    /// The highest id that was kept.
    pub(crate) highest: Option<u32>,
    /// Of the kept payloads with fewer bytes than `payload_size`, the one with the lowest id.
    pub(crate) shortest: Option<Short>,
    /// How many bytes of the buffer were placed.
    pub(crate) placed: u32,
    /// The end of the highest byte that was placed, 0 if none was.
    pub(crate) end: u32,
    /// Whether a kept payload reaches past the buffer.
    pub(crate) past: bool,
}
