//! The generator and its images. An image is told by its lines, the lines that it announces, and its bytes.

use crate::fault::Fault;
use crate::row::{number, short_number, word};
use crate::shown::{shown, told};
use gev_frames::{Lcg, camera_frame, frame_of, rows_of, short_frame_of};
use gev_types::{Frame, Shape, frame_size};
use std::alloc::Global;

/// 64 columns and 48 lines of Mono8.
pub const SHAPE: Shape = Shape {
    pixel: 0x0108_0001,
    size_x: 64,
    size_y: 48,
};

/// The answer to a row of the generator.
pub fn answer(alloc: Global, row: &str) -> Result<String, Fault> {
    match word(row, 1) {
        "draw" => draw(alloc, number(row, 2)?),
        "whole" => whole(alloc, row),
        "lines" => lines(alloc, row),
        "camera" => of_camera(alloc, number(row, 2)?, number(row, 3)?),
        _ => Err(Fault::NotUnderstood),
    }
}

/// What is drawn first, and the generator behind it.
fn draw(alloc: Global, seed: u64) -> Result<String, Fault> {
    let mut generator = Lcg::new(seed);
    let drawn = generator.draw();
    told(alloc, (drawn, generator))
}

/// The shape of an image, by the words of a row.
fn shape(row: &str) -> Result<Shape, Fault> {
    Ok(Shape {
        pixel: short_number(row, 4)?,
        size_x: short_number(row, 5)?,
        size_y: short_number(row, 6)?,
    })
}

/// An image as text.
fn show(alloc: Global, frame: &Frame) -> Result<String, Fault> {
    let bytes = shown(alloc, frame.pixels.as_slice())?;
    Ok(format!(in alloc;
        "block {} {} of {} lines {bytes}",
        frame.block, frame.rows, frame.size_y
    )?)
}

/// A whole image, by the words of a row.
fn whole(alloc: Global, row: &str) -> Result<String, Fault> {
    let seed = number(row, 2)?;
    let block = number(row, 3)?;
    show_whole(alloc, seed, block, shape(row)?)
}

/// The whole image of this shape, where there are such.
fn show_whole(alloc: Global, seed: u64, block: u64, shape: Shape) -> Result<String, Fault> {
    if frame_size(shape.pixel, shape.size_x, shape.size_y, 0, 0).is_none() {
        return Err(Fault::NotNow);
    }
    show(alloc, &frame_of(alloc, seed, block, shape)?)
}

/// An image of which the first lines are there, by the words of a row.
fn lines(alloc: Global, row: &str) -> Result<String, Fault> {
    let seed = number(row, 2)?;
    let block = number(row, 3)?;
    let shape = shape(row)?;
    show_lines(alloc, seed, block, shape, short_number(row, 7)?)
}

/// The image of this shape with so many lines, where there are such.
fn show_lines(
    alloc: Global,
    seed: u64,
    block: u64,
    shape: Shape,
    lines: u32,
) -> Result<String, Fault> {
    if frame_size(shape.pixel, shape.size_x, shape.size_y, 0, 0).is_none()
        || lines == 0
        || lines > shape.size_y
    {
        return Err(Fault::NotNow);
    }
    show(alloc, &short_frame_of(alloc, seed, block, shape, lines)?)
}

/// The lines of the camera's image in this block where images are whole and where they are short, and the
/// short image.
fn of_camera(alloc: Global, seed: u64, block: u64) -> Result<String, Fault> {
    let told = show(alloc, &camera_frame(alloc, true, seed, block, SHAPE)?)?;
    let whole = rows_of(false, block, SHAPE);
    let short = rows_of(true, block, SHAPE);
    Ok(format!(in alloc; "{whole} {short} {told}")?)
}
