/// A part of a line.
#[derive(Clone, Copy)]
pub(crate) enum Piece<'a> {
    /// A text as it stands.
    Text(&'a [u8]),
    /// A number in decimal.
    Number(u64),
    /// A number in decimal, behind a minus sign where it is below 0.
    Code(i32),
    /// 1 for true, 0 for false.
    Flag(bool),
    /// Bytes, each as two lower-case hex digits.
    Hex(&'a [u8]),
}
