//! The test images of the simulated camera: a generator of numbers, and the frame that it makes of a
//! seed and a block id.
//!
//! `specs/Generator.antt` defines the generator and `specs/Frames.antt` the frames; the functions of
//! `laws` say what they amount to.
#![tactic(auto)]

mod frames;
mod laws;
mod lcg;

pub use frames::{camera_frame, frame_of, rows_of, short_frame_of};
pub use laws::{
    camera_frames_are_valid, drawn_bytes_are_draws, made_frames_are_valid, short_frames_are_valid,
};
pub use lcg::Lcg;
