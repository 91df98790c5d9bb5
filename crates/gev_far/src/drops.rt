/// What the system dropped of the datagrams that came for a link, as their room was full.
#[derive(Clone, Copy)]
pub struct Drops {
    /// How many datagrams it dropped since the link was bound.
    pub datagrams: u64,
    /// How many bytes the room has for datagrams that wait, with what the system keeps beside them.
    pub socket_bytes: u64,
}
