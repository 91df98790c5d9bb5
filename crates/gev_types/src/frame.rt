ghost use Rattle.std.specs.Prelude.{SomeIff};
ghost use Rattle.gev_types.specs.FrameSize.{image_size, IsImageSize};

use crate::bytes::Bytes;
use crate::limits::MAX_BUFFER_SIZE;

/// The kind and size of a camera's images.
#[derive(Clone, Copy, Debug, PartialEq, Eq)]
pub struct Shape {
    /// The pixel format's code; bits 16 to 23 are the bits of a pixel.
    pub pixel: u32,
    /// Pixels in a line.
    pub size_x: u32,
    /// Lines.
    pub size_y: u32,
}

/// One image, as a camera sends it in one block (GigE Vision 2.0, GVSP image payload).
#[derive(Drop)]
pub struct Frame {
    /// The block id, from 1 on.
    pub block: u64,
    /// When the image was taken, in the camera's ticks.
    pub timestamp: u64,
    /// The pixel format's code; bits 16 to 23 are the bits of a pixel.
    pub pixel: u32,
    /// Pixels in a line.
    pub size_x: u32,
    /// Lines that the leader announces: the most that the image may have.
    pub size_y: u32,
    /// Lines that the image has, from 1 to `size_y`. The trailer tells them: a line-scan camera only
    /// knows them at the end.
    pub rows: u32,
    /// The first column of the sensor that is sent.
    pub offset_x: u32,
    /// The first line of the sensor that is sent.
    pub offset_y: u32,
    /// Bytes after each line.
    pub padding_x: u16,
    /// Bytes after the image.
    pub padding_y: u16,
    /// The image's bytes, padding included.
    pub pixels: Bytes,
}

/// How many bytes an image of this kind and size has, or None where that is 0 or above 64 MiB.
///
/// A pixel may have 0 bits; then padding alone makes the size.
pub fn frame_size(
    pixel: u32,
    size_x: u32,
    size_y: u32,
    padding_x: u16,
    padding_y: u16,
) -> Option<u32>
    ensures { let size = image_size pixel size_x size_y padding_x padding_y in
        SomeIff result (IsImageSize size) size }
{
    let bits_per_pixel = pixel / 65536 % 256;
    let pixel_bits = u128::from(size_x) * u128::from(size_y) * u128::from(bits_per_pixel);
    let line_padding = u128::from(padding_x) * u128::from(size_y);
    let size = pixel_bits.div_ceil(8) + line_padding + u128::from(padding_y);
    if size == 0 || size > u128::from(MAX_BUFFER_SIZE) {
        return None;
    }
    Some(size as u32)
}
