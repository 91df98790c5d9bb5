//! Frames, records of filled buffers, and the limits that the whole stack keeps.
#![tactic(auto)]

mod block_account; // what became of a block
mod block_record; // what is known of a buffer's block
mod buf; // an image buffer
mod bytes; // owned bytes
mod frame; // images, and their size
mod image_info; // what is known of a buffer's image
pub mod laws; // laws of the definitions, as contracts
mod limits; // the numbers that all keep
mod memory; // want of memory
mod peer; // an address and a port
mod reasons; // why an image isn't whole

pub use block_account::{BlockAccount, Cause, Lost};
pub use block_record::Record;
pub use buf::Buf;
pub use bytes::Bytes;
pub use frame::{Frame, Shape, frame_size};
pub use image_info::ImageInfo;
pub use limits::{
    MAX_BUFFER_SIZE, MAX_PACKET_ID, MAX_PAYLOAD_SIZE, MAX_RECEIVED_PAYLOAD_SIZE, MIN_PAYLOAD_SIZE,
    PLACES,
};
pub use memory::NoMemory;
pub use peer::Peer;
pub use reasons::Reasons;
