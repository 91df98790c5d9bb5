/// The bytes of the longest datagram that a tape hears whole.
pub(crate) const ROOM: usize = 1600;

/// What a receive gave.
#[derive(Drop)]
pub(crate) enum Kept {
    /// No datagram: none came, or the receive failed.
    Nothing,
    /// A datagram, in the first `len` bytes.
    Came { bytes: [u8; ROOM], len: usize },
}
