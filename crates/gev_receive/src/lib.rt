//! A run over the frames of a camera on the network: the camera is taken, its stream is received and handed out as it
//! comes, and the camera is let go.
//!
//! `specs/Answers.antt` says which answer each end gives, which of two goes before the other, and of which the camera let its
//! controller go.
#![tactic(auto)]

mod answers; // how a run ends, of several causes
mod drops; // datagrams that the system dropped
mod ending; // the last line
mod frames; // the frames of a stream
mod leading; // the first leader, waited for
mod meeting; // the camera, taken and let go
mod noticing; // the last datagram that is no packet
mod ran; // how the part between went
mod reading; // the reader's worker
mod receiving; // a run over ports
mod sides; // what host and application work with
mod starting; // what a stream is received with
mod threads; // whether a thread can be made
mod tools; // what ports give and get back
mod workers; // reader and application as threads
mod writes; // the writes of each stage

pub use answers::{
    control_status, handed_status, is_leader_lost, is_lost, is_reader_lost, is_told, leader_status,
    leave_status, reader_status, weightier,
};
pub use receiving::receive_over;
