ghost use Rattle.std.specs.Prelude.{◌≡◌, ◌≤◌, ◌++◌, take, IfOk, OnOk, OnErr};
ghost use Rattle.std.specs.Vec.{vec_capacity};
ghost use Rattle.gev_links.specs.Faults.{Rose};
ghost use Rattle.gev_links.specs.Told.{Appends, WritesFront};
ghost use Rattle.frame_pictures.specs.Pictures.{head_text, rows_text, picture};
ghost use Rattle.picture_report.specs.Writing.{DrawsBy};

use crate::head::add_head;
use crate::plain::{plain_pixels, write_both};
use crate::rows::{PIECE, write_rows};
use crate::stop::PictureStop;
use frame_pictures::{NoPicture, Samples, fills_bytes, samples_of};
use gev_links::{Failed, Sink, write_all};
use gev_types::{ImageInfo, NoMemory, Record};
use std::alloc::Global;

/// The piece, with the picture's head in it.
fn begin(alloc: Global, samples: Samples, rec: Record, info: ImageInfo) -> Result<Vec<u8>, NoMemory>
    ensures head { IfOk result (λ piece. piece.items ≡ head_text samples rec info) }
    ensures capacity { IfOk result (λ piece. 65536 ≤ vec_capacity piece) }
{
    let mut piece = Vec::with_capacity(alloc, PIECE)?;
    add_head(samples, rec, info, &mut piece)?;
    Ok(piece)
}

/// Writes what the piece holds, and the rows behind it.
fn write_drawing<K: Sink>(
    samples: Samples,
    info: ImageInfo,
    image: &[u8],
    piece: &mut Vec<u8>,
    sink: &mut K,
) -> Result<(), Failed>
    requires { 65536 ≤ vec_capacity piece.old }
    ensures written { OnOk result (Appends (K.written sink.old) (K.written sink.new) (piece.old.items ++ rows_text samples info image.now info.rows)) }
    ensures no_fault { OnOk result (K.faults sink.new ≡ K.faults sink.old) }
    ensures front { OnErr result (WritesFront (K.written sink.old) (K.written sink.new) (piece.old.items ++ rows_text samples info image.now info.rows)) }
    ensures failed { OnErr result (Rose (K.faults sink.old) (K.faults sink.new)) }
{
    if let Some(pixels) = plain_pixels(samples, info, image) {
        return write_both(piece.as_slice(), pixels, sink);
    }
    write_rows(samples, info, image, piece, sink)?;
    write_all(sink, piece.as_slice())
}

/// The first `count` bytes; all, where there are no more.
fn front_of(bytes: &[u8], count: u32) -> &[u8]
    ensures { result.now ≡ take count bytes.now }
{
    if (count as usize) < bytes.len() {
        &bytes[..count as usize]
    } else {
        bytes
    }
}

/// Writes the picture in a buffer with this record and these bytes, of which the first `data_len` are the image's; what
/// lies behind them counts as 0. It's a PNM file in its binary form, with the record in a comment of its head.
///
/// All the memory that it takes, 64 KiB and no copy of the image, it takes before it writes.
pub fn write_picture<K: Sink>(
    alloc: Global,
    rec: Record,
    bytes: &[u8],
    sink: &mut K,
) -> Result<(), PictureStop>
    ensures { DrawsBy result (picture rec bytes.now) (K.written sink.old) (K.written sink.new) (K.faults sink.old) (K.faults sink.new) }
{
    let info = match rec.image {
        Some(info) => info,
        None => return Err(PictureStop::NoPicture(NoPicture::NoLeader)),
    };
    let samples = match samples_of(info.pixel) {
        Some(samples) => samples,
        None => {
            return Err(PictureStop::NoPicture(NoPicture::PixelFormat(info.pixel)));
        }
    };
    if info.size_x == 0 || info.rows == 0 {
        return Err(PictureStop::NoPicture(NoPicture::NoPixels));
    }
    if !fills_bytes(samples, info.size_x) {
        return Err(PictureStop::NoPicture(NoPicture::PartBytes));
    }
    let mut piece = match begin(alloc, samples, rec, info) {
        Ok(piece) => piece,
        Err(NoMemory) => return Err(PictureStop::NoMemory),
    };
    let image = front_of(bytes, rec.data_len);
    match write_drawing(samples, info, image, &mut piece, sink) {
        Ok(()) => Ok(()),
        Err(Failed) => Err(PictureStop::WriteFault),
    }
}
