/// Why there is no picture.
#[derive(Clone, Copy, Debug, PartialEq, Eq)]
pub enum NoPicture {
    /// So many buffers were taken, and the one that was asked for isn't among them.
    Taken(u32),
    /// So many buffers were taken, one at least, and none of them has a picture.
    NoneOf(u32),
    /// The buffer has no block, or no leader of its block was kept.
    NoLeader,
    /// Pixels of the format with this code aren't drawn.
    PixelFormat(u32),
    /// The picture has no row, or rows without a pixel.
    NoPixels,
    /// The pixels of a row don't fill whole bytes.
    PartBytes,
}
