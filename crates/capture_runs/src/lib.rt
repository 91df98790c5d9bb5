//! The run over a capture: its records are read one after the other, what each packet is goes to a teller, and
//! the teller's text to a sink.
//!
//! `specs/Texts.antt` says what a teller's text of packets is, and `specs/Ends.antt` what a run has read and
//! written by its ending.
#![tactic(auto)]

mod ending; // how a run ended
mod running; // the loop over the records
mod stop; // why a text wasn't written
mod telling; // who writes the text of the packets
mod writing; // text on its way to a sink

pub use ending::Ending;
pub use running::run_capture;
pub use telling::Telling;
