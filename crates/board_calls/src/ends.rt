use gev_types::Buf;

/// How a fill ended.
#[derive(Drop)]
pub enum FillEnd {
    /// The buffer is the last one of the output.
    Filled,
    /// The stream was closed. The buffer comes back, and its place stays in hand, lifted.
    Closed(Buf),
}
