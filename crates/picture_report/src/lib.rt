//! Writes the picture in a buffer to a sink, from one piece that is filled and written again and again.
//!
//! `frame_pictures` says what the picture is, and `specs/Writing.antt` what writing it did, by its answer.
#![tactic(auto)]

mod head; // the picture's head
mod pixels; // one pixel
mod plain; // an image whose bytes are its pixels
mod rows; // rows of pixels, to a sink
mod stop; // why it wasn't written
mod writing; // the whole picture

pub use stop::PictureStop;
pub use writing::write_picture;
