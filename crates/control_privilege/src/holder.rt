use gev_types::Peer;

/// The peer that has control.
#[derive(Clone, Copy, Debug, PartialEq, Eq)]
pub struct Holder {
    /// The peer.
    pub peer: Peer,
    /// The moment of its latest command, in milliseconds.
    pub last: u64,
    /// Whether its access is exclusive: then no other peer can read either.
    pub exclusive: bool,
}
