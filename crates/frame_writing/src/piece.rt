use gev_types::{Cause, Lost, Reasons};

/// A part of a line.
#[derive(Clone, Copy)]
pub(crate) enum Piece<'a> {
    /// A text as it stands.
    Text(&'a [u8]),
    /// A number in decimal.
    Number(u64),
    /// 1 for true, 0 for false.
    Flag(bool),
    /// Bytes, each as two lower-case hex digits.
    Hex(&'a [u8]),
    /// A code of four bytes, as eight lower-case hex digits.
    Code(u32),
    /// Why a block retired.
    Cause(Cause),
    /// Why its image isn't whole.
    Why(Reasons),
    /// Which of its packets are missing.
    Ids(&'a Lost),
}
