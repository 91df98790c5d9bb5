/// A part of a line.
#[derive(Clone, Copy)]
pub(crate) enum Piece<'a> {
    /// A text as it stands.
    Text(&'a [u8]),
    /// A number in decimal.
    Number(u64),
    /// An IPv4 address.
    Address(u32),
    /// A MAC address: its six bytes.
    Mac(&'a [u8; 6]),
    /// A register's text.
    Shown(&'a [u8]),
}
