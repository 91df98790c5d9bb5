use board_calls::Mode;
use gev_types::Peer;
use packet_requests::IdMode;

/// How a camera's stream is read.
#[derive(Clone, Copy, Debug, PartialEq, Eq)]
pub struct ReaderWords {
    /// The camera's control port.
    pub camera: Peer,
    /// Which identifiers the stream has.
    pub ids: IdMode,
    /// How many milliseconds may pass without a datagram.
    pub silence: u64,
    /// How buffers are handled.
    pub mode: Mode,
}
