//! What the definitions promise: each function here does nothing, and its contract is a law.

ghost use Rattle.frame_pictures.specs.Laws.{PixelsAreAsWideAsTheirFormat, PlainFramesAreTheirPixels, PicturesAreTheirPixels, HeldFramesAreShown, BytesInPlaceAreShown};
ghost use Rattle.frame_pictures.specs.Heads.{HeadsTellTheirRecord, RetiredHeadsTellTheirBlock};
ghost use Rattle.frame_pictures.specs.Worked.{PicturesAreWorked};
ghost use Rattle.frame_pictures.specs.WorkedFormats.{FormatsAreWorked};

/// A pixel that is drawn takes as many bits as its format's code says.
pub fn pixels_are_as_wide_as_their_format()
    ensures { PixelsAreAsWideAsTheirFormat }
{}

/// Behind the head of the picture of a frame without padding, with a byte of grey for each pixel, come the frame's
/// pixels and nothing else.
pub fn plain_frames_are_their_pixels()
    ensures { PlainFramesAreTheirPixels }
{}

/// Behind its head a picture has as many pixels as its image, row by row from the top. Each is made of the bytes that
/// stand in the buffer at its place in its row, and no padding is drawn.
pub fn pictures_are_their_pixels()
    ensures { PicturesAreTheirPixels }
{}

/// Each picture begins with its head: behind the first line a comment with the block, whether the image is whole, how
/// many bytes were placed, how many packets are missing, and the camera's time, as the record has them.
pub fn heads_tell_their_record()
    ensures { HeadsTellTheirRecord }
{}

/// The head of a block that retired tells of its kept packets: how many are missing, a notice being none, 0 where the
/// image is whole; and its time is that of the block's frame, complete or not.
pub fn retired_heads_tell_their_block()
    ensures { RetiredHeadsTellTheirBlock }
{}

/// The picture of a buffer that holds a block's frame is that of the frame, with the buffer's record in its head.
pub fn held_frames_are_shown()
    ensures { HeldFramesAreShown }
{}

/// In every picture, complete or not, each byte that was received is the frame's, every other is 0, and each pixel is
/// made of the bytes at its place.
pub fn bytes_in_place_are_shown()
    ensures { BytesInPlaceAreShown }
{}

/// Some pictures as they were worked out by hand.
pub fn pictures_are_worked()
    ensures { PicturesAreWorked }
{}

/// Each pixel format that is drawn, by its name and its code, with how its pixels lie in a buffer.
pub fn formats_are_worked()
    ensures { FormatsAreWorked }
{}
