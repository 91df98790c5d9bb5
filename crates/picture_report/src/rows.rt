//! Rows of pixels, on their way to a sink.

ghost use Rattle.std.specs.Prelude.{◌≡◌, ◌≤◌, ◌+◌, ◌++◌, drop, OnOk, OnErr};
ghost use Rattle.std.specs.Vec.{vec_len, vec_capacity};
ghost use Rattle.gev_links.specs.Faults.{Rose};
ghost use Rattle.gev_links.specs.Told.{WritesFront};
ghost use Rattle.frame_pictures.specs.Pictures.{row_step, row_text, rows_text};
ghost use Rattle.picture_report.specs.Writing.{HoldsBack};

use crate::pixels::add_pixels;
use frame_pictures::{Samples, pixel_bits};
use gev_links::{Failed, Sink, write_all};
use gev_types::ImageInfo;

/// Bytes of the piece from which a picture is written.
pub(crate) const PIECE: usize = 65_536;

/// Pixels that are added to the piece at once.
const CHUNK: u32 = 4_096;

/// Writes the piece where it has no room for as many pixels.
fn make_room<K: Sink>(piece: &mut Vec<u8>, sink: &mut K) -> Result<(), Failed>
    requires { 65536 ≤ vec_capacity piece.old }
    ensures held { OnOk result (HoldsBack (K.written sink.old) (K.written sink.new) piece.old.items piece.new.items) }
    ensures room { OnOk result (vec_len piece.new + 12288 ≤ vec_capacity piece.new) }
    ensures capacity { 65536 ≤ vec_capacity piece.new }
    ensures no_fault { OnOk result (K.faults sink.new ≡ K.faults sink.old) }
    ensures front { OnErr result (WritesFront (K.written sink.old) (K.written sink.new) piece.old.items) }
    ensures failed { OnErr result (Rose (K.faults sink.old) (K.faults sink.new)) }
{
    if piece.len() + 12_288 <= PIECE {
        return Ok(());
    }
    write_all(sink, piece.as_slice())?;
    piece.clear();
    Ok(())
}

/// Adds so many pixels of the row that begins with these bytes, and writes the piece as often as it's full.
fn write_row<K: Sink>(
    samples: Samples,
    row: &[u8],
    width: u32,
    piece: &mut Vec<u8>,
    sink: &mut K,
) -> Result<(), Failed>
    requires { 65536 ≤ vec_capacity piece.old }
    ensures held { OnOk result (HoldsBack (K.written sink.old) (K.written sink.new) (piece.old.items ++ row_text samples row.now width) piece.new.items) }
    ensures capacity { 65536 ≤ vec_capacity piece.new }
    ensures no_fault { OnOk result (K.faults sink.new ≡ K.faults sink.old) }
    ensures front { OnErr result (WritesFront (K.written sink.old) (K.written sink.new) (piece.old.items ++ row_text samples row.now width)) }
    ensures failed { OnErr result (Rose (K.faults sink.old) (K.faults sink.new)) }
{
    for chunk in 0..width.div_ceil(CHUNK) {
        let from = chunk * CHUNK;
        make_room(piece, sink)?;
        add_pixels(samples, row, from, CHUNK.min(width - from), piece);
    }
    Ok(())
}

/// The bytes behind the first `count`; none, where there are no more.
fn behind(bytes: &[u8], count: usize) -> &[u8]
    ensures { result.now ≡ drop count bytes.now }
{
    if count < bytes.len() {
        &bytes[count..]
    } else {
        &[]
    }
}

/// How many bytes lie between the begin of one row and that of the next.
fn row_step(samples: Samples, info: ImageInfo) -> usize
    ensures { result ≡ row_step samples info }
{
    info.size_x as usize * usize::from(pixel_bits(samples)) / 8 + usize::from(info.padding_x)
}

/// Adds the rows of an image of these bytes, from the top, and writes the piece as often as it's full.
pub(crate) fn write_rows<K: Sink>(
    samples: Samples,
    info: ImageInfo,
    image: &[u8],
    piece: &mut Vec<u8>,
    sink: &mut K,
) -> Result<(), Failed>
    requires { 65536 ≤ vec_capacity piece.old }
    ensures held { OnOk result (HoldsBack (K.written sink.old) (K.written sink.new) (piece.old.items ++ rows_text samples info image.now info.rows) piece.new.items) }
    ensures no_fault { OnOk result (K.faults sink.new ≡ K.faults sink.old) }
    ensures front { OnErr result (WritesFront (K.written sink.old) (K.written sink.new) (piece.old.items ++ rows_text samples info image.now info.rows)) }
    ensures failed { OnErr result (Rose (K.faults sink.old) (K.faults sink.new)) }
{
    let step = row_step(samples, info);
    let mut rest = image;
    for _row in 0..info.rows {
        write_row(samples, rest, info.size_x, piece, sink)?;
        rest = behind(rest, step);
    }
    Ok(())
}
