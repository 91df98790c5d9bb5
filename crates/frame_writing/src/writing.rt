ghost use Rattle.std.specs.Prelude.{◌≡◌};
ghost use Rattle.frame_pictures.specs.Pictures.{picture_of};
ghost use Rattle.frame_writing.specs.FrameLine.{frame_line};
ghost use Rattle.frame_writing.specs.Texts.{picture_text, text_of};
ghost use Rattle.frame_writing.specs.Turns.{WritesBy};

use crate::add_frame;
use crate::write_stop::WriteStop;
use camera_words::{LineDigest, Output};
use gentl_types::BufferId;
use gev_links::{Failed, Sink, write_all};
use gev_types::Buf;
use picture_report::{PictureStop, write_picture};
use std::alloc::Global;

/// Writes the line of a buffer.
fn write_line<K: Sink>(
    alloc: Global,
    id: BufferId,
    buf: &Buf,
    digest: LineDigest,
    sink: &mut K,
) -> Result<(), WriteStop>
    ensures { WritesBy result (frame_line digest id buf.now) (K.written sink.old) (K.written sink.new) (K.faults sink.old) (K.faults sink.new) }
{
    let mut line = Vec::new(alloc);
    if add_frame(&mut line, id, buf, digest).is_err() {
        return Err(WriteStop::NoMemory);
    }
    match write_all(sink, line.as_slice()) {
        Ok(()) => Ok(()),
        Err(Failed) => Err(WriteStop::WriteFault),
    }
}

/// Writes the picture of a buffer, by its own record, where it has one.
fn write_image<K: Sink>(alloc: Global, buf: &Buf, sink: &mut K) -> Result<(), WriteStop>
    ensures { WritesBy result (picture_text (picture_of buf.now)) (K.written sink.old) (K.written sink.new) (K.faults sink.old) (K.faults sink.new) }
{
    match write_picture(alloc, buf.rec(), buf.bytes(), sink) {
        Ok(()) => Ok(()),
        Err(PictureStop::NoPicture(_)) => Ok(()),
        Err(PictureStop::WriteFault) => Err(WriteStop::WriteFault),
        Err(PictureStop::NoMemory) => Err(WriteStop::NoMemory),
    }
}

/// Writes what is wanted of a buffer.
pub(crate) fn write_frame<K: Sink>(
    alloc: Global,
    output: Output,
    id: BufferId,
    buf: &Buf,
    sink: &mut K,
) -> Result<(), WriteStop>
    ensures { WritesBy result (text_of output id buf.now) (K.written sink.old) (K.written sink.new) (K.faults sink.old) (K.faults sink.new) }
{
    match output {
        Output::Lines(digest) => write_line(alloc, id, buf, digest, sink),
        Output::Pictures => write_image(alloc, buf, sink),
        Output::Counts => Ok(()),
    }
}
