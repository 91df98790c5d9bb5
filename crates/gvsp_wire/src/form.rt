/// What a packet carries: the low four bits of its format byte (GigE Vision 2.0, GVSP packet
/// format).
#[derive(Clone, Copy, PartialEq, Eq)]
pub(crate) enum Form {
    /// Format 1.
    Leader,
    /// Format 2.
    Trailer,
    /// Format 3.
    Payload,
}
