use stream_packets::LeaderInfo;

/// What a datagram tells of an image stream.
#[derive(Clone, Copy, PartialEq, Eq)]
pub(crate) enum Kind {
    /// A leader: whether its header is extended, its block id as it stands there, and what it tells.
    Leader(bool, u64, LeaderInfo),
    /// A payload of so many bytes.
    Payload(u64),
    /// Neither.
    Other,
}

/// What a datagram is to an image stream.
#[derive(Clone, Copy, PartialEq, Eq)]
pub(crate) struct Sign {
    /// What it tells.
    pub kind: Kind,
    /// It's a packet that was sent again, whatever its kind.
    pub resent: bool,
}
