use control_client::Client;
use gev_types::Peer;

/// What a turn is lent of the outside. Clauses read what a turn left behind these references at `exit`, by their order.
pub struct Lent<'a, S, M, C> {
    /// The client of the control channel.
    pub client: &'a mut Client,
    /// The link of the stream.
    pub stream: &'a mut S,
    /// The control link.
    pub control: &'a mut M,
    /// The reader's clock.
    pub clock: &'a mut C,
    /// The room of a receive, 9,000 bytes.
    pub out: &'a mut [u8],
    /// Where the requests and the client's commands are sent.
    pub camera: Peer,
}
