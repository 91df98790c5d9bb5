use packet_requests::IdMode;
use stream_packets::LeaderInfo;

/// What the first leader of a stream tells.
#[derive(Clone, Copy, Debug, PartialEq, Eq)]
pub struct FirstLeader {
    /// What it says of the image.
    pub info: LeaderInfo,
    /// Which identifiers the stream has.
    pub ids: IdMode,
    /// The most bytes of an image that a packet carries.
    pub payload_size: u16,
}
