//! What a program of your own needs, under one name: packets, a receiver, a board with its events, a camera, a client
//! and links. `docs/LIBRARY.md` has whole programs.
//!
//! Each name is that of the crate in which it stands, with its contract there.
#![tactic(auto)]

pub mod board; // buffers, who owns each, and the event of new ones
pub mod camera; // a simulated camera
pub mod client; // what makes a camera send
pub mod images; // what a filled buffer holds
pub mod links; // sockets, clocks and their forms in memory
pub mod packets; // packets and control messages as bytes
pub mod receiver; // packets into buffers

pub use gev_types::NoMemory;
