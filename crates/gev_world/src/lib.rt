//! The world of a soak run as code: camera, network, client and host as one machine, from a seed.
//!
//! `world_machine` defines what a round does and what a run writes, and `soak_host` what the host is. A
//! `World` runs it, and writes each line as it comes.
#![tactic(auto)]

mod camera_turn; // the camera's turn
mod client_turn; // the client's turn
mod host_turn; // the host's turn
mod network; // datagrams on their way
mod rounds; // a round, and whether it's the last
mod run_end; // how a run ends
mod soak_end; // how it ends for the caller
mod stage; // all of a world but its host
mod takes; // what the application takes
mod tools; // what a round works with
mod world; // the world and its run

pub use soak_end::SoakEnd;
pub use world::World;
