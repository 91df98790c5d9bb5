use gvsp_std::Widener;

/// What a script keeps of datagrams with standard identifiers.
#[derive(Drop)]
pub struct Widening {
    /// The version in its header, 1 or 2.
    pub version: u8,
    /// Widens datagrams since the stream was started.
    pub widener: Widener,
    /// Whether a datagram was widened since the script began.
    pub widened: bool,
    /// Datagrams that were refused. The count stands still at its type's end.
    pub refused: u64,
}
