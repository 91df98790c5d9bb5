/// What is known of the image that a buffer holds, complete or not: what the kept leader of its block says, and
/// the lines that the image has (GigE Vision 2.0, GVSP image leader and image trailer).
#[derive(Clone, Copy, Debug, PartialEq, Eq)]
pub struct ImageInfo {
    /// When the image was taken, in the camera's ticks.
    pub timestamp: u64,
    /// The pixel format's code; bits 16 to 23 are the bits of a pixel.
    pub pixel: u32,
    /// Pixels in a line.
    pub size_x: u32,
    /// Lines that the leader announces: the most that the image may have.
    pub size_y: u32,
    /// Lines that the image has: those that the kept trailer tells, where they are 1 to `size_y`, else
    /// `size_y`.
    pub rows: u32,
    /// The first column of the sensor that is sent.
    pub offset_x: u32,
    /// The first line of the sensor that is sent.
    pub offset_y: u32,
    /// Bytes after each line.
    pub padding_x: u16,
    /// Bytes after the image.
    pub padding_y: u16,
}
