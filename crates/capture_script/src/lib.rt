//! A replay script of the datagrams to one port of a capture, with a line for each buffer that is taken.
//!
//! `specs/Playing.antt` says what an acquisition makes of the datagrams, `specs/Script.antt` which lines the script
//! has, as a function of the capture's packets. `specs/Laws.antt` and `specs/Traces.antt` say what holds of the script of
//! every capture, and what its replay comes to.
#![tactic(auto)]

mod hearing; // a datagram with either kind of identifiers
pub mod laws; // what holds of every such script, as contracts
mod playing; // the acquisition that a script plays
mod scripting; // who writes the script
mod turning; // turns of the acquisition
mod writing; // lines, each with its line feed

pub use playing::Playing;
pub use scripting::write_capture;
