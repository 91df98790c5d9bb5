ghost use Rattle.std.specs.Prelude.{◌≡◌, ◌≤◌, IfOk};
ghost use Rattle.gev_types.specs.FrameSize.{IsImageSize, IsFrame};
ghost use Rattle.gev_frames.specs.Generator.{noise};
ghost use Rattle.gev_frames.specs.Frames.{shape_size, frame_of, short_frame_of, rows_of, camera_frame, MayBeShort};

use crate::lcg::Lcg;
use gev_types::{Bytes, Frame, NoMemory, Shape, frame_size};
use std::alloc::Global;

// One byte of each draw, the top 8 of its 32 bits.
fn noise(alloc: Global, count: u32, mut generator: Lcg) -> Result<Vec<u8>, NoMemory>
    ensures { IfOk result (λ bytes. bytes.items ≡ noise count generator) }
{
    let mut bytes = Vec::with_capacity(alloc, count as usize)?;
    for _drawn in 0..count {
        bytes.push_reserved((generator.draw() >> 24) as u8);
    }
    Ok(bytes)
}

/// The test image of a camera with this seed in this block, without offset and padding.
///
/// The block id is the timestamp too. The bytes are those that a generator draws which starts at the
/// sum of seed and block id, modulo 2^64.
pub fn frame_of(alloc: Global, seed: u64, block: u64, shape: Shape) -> Result<Frame, NoMemory>
    // `frame_size` of the shape without padding is Some.
    requires { IsImageSize (shape_size shape) }
    ensures made { IfOk result (λ frame. frame ≡ frame_of seed block shape) }
    ensures valid { IfOk result IsFrame }
{
    frame_with(alloc, seed, block, shape, shape.size_y)
}

/// The same image cut to its first `rows` lines, as a line-scan camera sends it that saw no more: its
/// leader announces the shape's lines all the same.
pub fn short_frame_of(
    alloc: Global,
    seed: u64,
    block: u64,
    shape: Shape,
    rows: u32,
) -> Result<Frame, NoMemory>
    // `frame_size` of the shape without padding is Some.
    requires fits { IsImageSize (shape_size shape) }
    requires some { 1 ≤ rows }
    requires at_most { rows ≤ shape.size_y }
    ensures made { IfOk result (λ frame. frame ≡ short_frame_of seed block shape rows) }
    ensures valid { IfOk result IsFrame }
{
    frame_with(alloc, seed, block, shape, rows)
}

// Draws the bytes of so many lines, and no more.
fn frame_with(
    alloc: Global,
    seed: u64,
    block: u64,
    shape: Shape,
    rows: u32,
) -> Result<Frame, NoMemory>
    requires fits { IsImageSize (shape_size shape) }
    requires some { 1 ≤ rows }
    requires at_most { rows ≤ shape.size_y }
    ensures made { IfOk result (λ frame. frame ≡ short_frame_of seed block shape rows) }
    ensures valid { IfOk result IsFrame }
{
    let size = frame_size(shape.pixel, shape.size_x, rows, 0, 0).unwrap();
    let pixels = noise(alloc, size, Lcg::new(seed.wrapping_add(block)))?;
    Ok(Frame {
        block,
        timestamp: block,
        pixel: shape.pixel,
        size_x: shape.size_x,
        size_y: shape.size_y,
        rows,
        offset_x: 0,
        offset_y: 0,
        padding_x: 0,
        padding_y: 0,
        pixels: Bytes::of(pixels),
    })
}

/// How many lines the image of a camera has in this block: the shape's, or where its images are
/// short, `block` modulo 8 fewer.
pub fn rows_of(short: bool, block: u64, shape: Shape) -> u32
    requires { MayBeShort short shape }
    ensures { result ≡ rows_of short block shape }
{
    if short {
        shape.size_y - (block % 8) as u32
    } else {
        shape.size_y
    }
}

/// The test image that a camera makes in this block, whole or short.
pub fn camera_frame(
    alloc: Global,
    short: bool,
    seed: u64,
    block: u64,
    shape: Shape,
) -> Result<Frame, NoMemory>
    // `frame_size` of the shape without padding is Some.
    requires fits { IsImageSize (shape_size shape) }
    requires lines { MayBeShort short shape }
    ensures made { IfOk result (λ frame. frame ≡ camera_frame short seed block shape) }
    ensures valid { IfOk result IsFrame }
{
    short_frame_of(alloc, seed, block, shape, rows_of(short, block, shape))
}
