//! The pictures of buffers that a replay script takes: the script is run as `script_replay` runs it, up to the `take` line
//! that gets the wanted buffer, or to its end where all are wanted, and nothing of its report is written.
#![tactic(auto)]

mod came; // what a line came to
mod drawing; // the picture of a taken buffer
mod image_end; // how it ended
pub mod laws; // laws of the definitions, as contracts
mod lines; // a line behind the header
mod running; // the loop over the lines
mod showing; // a script whose pictures are written
mod taking; // the line `take`
mod wanted; // which pictures are wanted
mod writing; // from the source to the sink

pub use image_end::ImageEnd;
pub use wanted::Wanted;
pub use writing::write_image;
