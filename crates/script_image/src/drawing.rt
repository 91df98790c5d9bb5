//! The picture of a buffer that was taken.

ghost use Rattle.std.specs.Prelude.{◌≡◌};
ghost use Rattle.board_model.specs.Plain.{HasBuf};
ghost use Rattle.script_image.specs.Drawing.{DrawsThere, end_by};

use crate::image_end::ImageEnd;
use board_model::PlainBoard;
use gev_links::Sink;
use picture_report::{PictureStop, write_picture};
use std::alloc::Global;

/// How it ends by the answer of writing a picture.
fn end_by(answer: Result<(), PictureStop>) -> ImageEnd
    ensures { result ≡ end_by answer }
{
    match answer {
        Ok(()) => ImageEnd::Done,
        Err(PictureStop::NoPicture(why)) => ImageEnd::NoPicture(why),
        Err(PictureStop::WriteFault) => ImageEnd::WriteFault,
        Err(PictureStop::NoMemory) => ImageEnd::NoMemory,
    }
}

/// Writes the picture of the buffer at this place, straight from the buffer, by its record.
pub(crate) fn draw<K: Sink>(alloc: Global, board: &PlainBoard, place: u8, sink: &mut K) -> ImageEnd
    requires lies { HasBuf board.now place }
    ensures draws { DrawsThere result board.now place (K.written sink.old) (K.written sink.new) (K.faults sink.old) (K.faults sink.new) }
{
    let buf = board.buf(place);
    end_by(write_picture(alloc, buf.rec(), buf.bytes(), sink))
}
