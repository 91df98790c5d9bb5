//! Sizes of images, buffers, owned bytes, numbers at places, and texts.

use crate::words::{bytes, number, number16, number32};
use gev_links::Failed;
use gev_types::{Buf, Bytes, NoMemory, Record};
use std::alloc::Global;
use std::str::SplitWhitespace;
use wire_fields::{u16_at, u32_at, u64_at};

/// The texts of want of memory and of a call on the outside that failed.
pub fn texts(alloc: Global) -> Option<String> {
    format!(in alloc; "{NoMemory}, {Failed}").ok()
}

/// A pixel format, columns, lines, and the padding of a line and of the image: the size in bytes.
pub fn frame_size(alloc: Global, words: &mut SplitWhitespace<'_>) -> Option<String> {
    let pixel = number32(words)?;
    let size_x = number32(words)?;
    let size_y = number32(words)?;
    let padding_x = number16(words)?;
    let padding_y = number16(words)?;
    let size = gev_types::frame_size(pixel, size_x, size_y, padding_x, padding_y);
    format!(in alloc; "{size:?}").ok()
}

/// A size, a position and bytes that are put there: the buffer with a record of one byte, and the buffer
/// after it was made empty.
pub fn buffer(alloc: Global, words: &mut SplitWhitespace<'_>) -> Option<String> {
    let size = number32(words)?;
    let at = number32(words)?;
    let piece = bytes(alloc, words)?;
    put(alloc, size, at, piece.as_slice())
}

/// Puts bytes into a buffer of this size: the buffer with a record of one byte, and after it was made empty.
fn put(alloc: Global, size: u32, at: u32, piece: &[u8]) -> Option<String> {
    if size == 0 || size > 16 {
        return None;
    }
    let mut buf = Buf::new(alloc, size).ok()?;
    buf.put(at, piece);
    buf.set_rec(Record {
        block: 7,
        filled: 1,
        ..Record::default()
    });
    filled_and_empty(alloc, &mut buf)
}

/// The buffer, and the buffer after it was made empty.
fn filled_and_empty(alloc: Global, buf: &mut Buf) -> Option<String> {
    let filled = text_of(alloc, buf)?;
    buf.clear();
    let empty = text_of(alloc, buf)?;
    format!(in alloc; "{filled}, then {empty}").ok()
}

/// The bytes of a buffer, and its record.
fn text_of(alloc: Global, buf: &Buf) -> Option<String> {
    let bytes = hex::encode(alloc, buf.bytes()).ok()?;
    let rec = buf.rec();
    format!(in alloc; "{bytes} {rec:?}").ok()
}

/// Owned bytes, the last of them first.
pub fn reversed(alloc: Global, words: &mut SplitWhitespace<'_>) -> Option<String> {
    let mut pixels = Bytes::of(bytes(alloc, words)?);
    pixels.as_mut_slice().reverse();
    hex::encode(alloc, pixels.as_slice()).ok()
}

/// Bytes, a place and a width in bytes: the number there.
pub fn field(alloc: Global, words: &mut SplitWhitespace<'_>) -> Option<String> {
    let bytes = bytes(alloc, words)?;
    let place = usize::from(number16(words)?);
    let found = number_at(bytes.as_slice(), place, number(words)?)?;
    format!(in alloc; "{found:#x}").ok()
}

/// The number of so many bytes at this place.
fn number_at(bytes: &[u8], place: usize, width: u64) -> Option<u64> {
    let left = bytes.len().checked_sub(place)?;
    match width {
        2 if left >= 2 => Some(u64::from(u16_at(bytes, place))),
        4 if left >= 4 => Some(u64::from(u32_at(bytes, place))),
        8 if left >= 8 => Some(u64_at(bytes, place)),
        _ => None,
    }
}
