use gev_types::Peer;

/// What a captured packet is.
#[derive(Clone, Copy, Debug, PartialEq, Eq)]
pub enum Content<'a> {
    /// No datagram of UDP over IPv4.
    Other,
    /// A fragment of an IPv4 packet.
    Fragment,
    /// A datagram of which not all bytes were captured.
    Cut,
    /// No packet: the capturing program has dropped so many of an interface's.
    Dropped {
        /// As it told of the interface before, 0 where it hadn't.
        before: u64,
        /// As it tells now.
        now: u64,
    },
    /// A datagram: who sent it, to whom, and its bytes.
    Datagram {
        /// Who sent it.
        sender: Peer,
        /// To whom.
        receiver: Peer,
        /// Its bytes, from UDP's header on without that.
        bytes: &'a [u8],
    },
}
