use crate::reader_end::ReaderEnd;

/// What the reader of a camera's stream tells at its end.
#[derive(Clone, Copy, Debug, PartialEq, Eq)]
pub struct TurnsDone {
    /// How it ended.
    pub end: ReaderEnd,
    /// How many datagrams were refused in widening. The count stands still at its greatest value.
    pub refused: u64,
}
