use gev_types::Peer;

/// A part of a line.
#[derive(Clone, Copy)]
pub(crate) enum Piece<'a> {
    /// A text as it stands.
    Text(&'a [u8]),
    /// A number in decimal.
    Number(u64),
    /// An address and a port.
    Pair(Peer),
    /// Which headers a stream's leaders had: extended ones, standard ones.
    Ids(bool, bool),
    /// A pixel format's code, as eight hex digits.
    Pixel(u32),
}
