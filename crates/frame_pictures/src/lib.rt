//! Pictures of what buffers hold: which buffer has one, and its text as a PNM file.
//!
//! `specs/Formats.antt` says which pixel formats are drawn, and `specs/Pictures.antt` has the picture as a text, by the
//! record and the bytes of the buffer. The laws say of it, in words of their own, that it's the image's pixels and the
//! frame's.
#![tactic(auto)]

mod formats; // the pixel formats that are drawn
pub mod laws; // laws of the definitions, as contracts
mod no_picture; // why there is none
mod samples; // how a pixel is read

pub use formats::{fills_bytes, pixel_bits, samples_of};
pub use no_picture::NoPicture;
pub use samples::Samples;
