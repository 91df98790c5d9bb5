//! Replay scripts made of a seed: the packets of test images, as they come out of a network that loses,
//! repeats and swaps them.
//!
//! `specs/MakeText.antt` has the lines of the script, `specs/Network.antt` the network that the packets
//! go through, and `laws` says that each line is read again.
#![tactic(auto)]

mod blocks; // the images and their blocks
pub mod laws; // laws of the definitions, as contracts
mod lines; // the script's lines
mod make_end; // how the making ended
mod making; // the whole script
mod network; // the network between camera and script
mod packets; // the packets of an image
mod stop; // why the writing stopped

pub use blocks::IMAGE_SHAPE;
pub use lossy_queue::Rates;
pub use make_end::MakeEnd;
pub use making::make;
pub use stop::Stop;
