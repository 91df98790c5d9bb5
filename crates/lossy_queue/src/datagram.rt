use gev_types::Bytes;

/// What a datagram belongs to.
#[derive(Clone, Copy, Debug, PartialEq, Eq)]
pub enum Channel {
    /// The control channel: a command or an acknowledge (GVCP).
    Control,
    /// The stream channel: a packet of an image stream (GVSP).
    Stream,
}

/// A datagram on its way.
#[derive(Drop)]
pub struct Datagram {
    /// What it belongs to.
    pub channel: Channel,
    /// Its payload, without the headers of IP and UDP.
    pub bytes: Bytes,
}
