/// How the pixels of a picture lie in the rows of a buffer, without a bit between two of a row (Pixel Format Naming
/// Convention).
#[derive(Clone, Copy, Debug, PartialEq, Eq)]
pub enum Samples {
    /// A byte of grey each.
    Grey8,
    /// Two bytes of grey each, the least significant first, with values up to this one.
    Grey16(u16),
    /// A byte of red, one of green and one of blue each.
    Rgb,
    /// A byte of blue, one of green and one of red each.
    Bgr,
    /// A byte of red, one of green, one of blue and one of alpha each.
    Rgba,
    /// A byte of blue, one of green, one of red and one of alpha each.
    Bgra,
    /// A byte of brightness and one of colour difference each.
    Yuyv,
    /// A byte of colour difference and one of brightness each.
    Uyvy,
    /// Two values of 10 bits in three bytes, the `10Packed` of GigE Vision: their high eight bits are the first byte and
    /// the third, and their low two begin with bit 0 and bit 4 of the second.
    Packed10,
    /// Two values of 12 bits in three bytes, the `12Packed` of GigE Vision: as the former, with four low bits.
    Packed12,
    /// Values of 10 bits one behind the other, the least significant bits first: the formats ending in `10p`.
    Lsb10,
    /// Values of 12 bits one behind the other, the least significant bits first: the formats ending in `12p`.
    Lsb12,
}
