//! The simulated camera on the network: turns over a link that is bound at an address of this machine, some of which make a
//! frame, and a line at the end.
//!
//! `specs/Turns.antt` says what a turn does and in which order the two kinds come, `specs/Turning.antt` how the turns end, and
//! `specs/Simulated.antt` what is done over ports that tell. Of how long a receive waits no clause speaks.
#![tactic(auto)]

mod ends; // how the turns ended, and the run
mod finishing; // the line at the end
mod kinds; // what a turn does and tells
pub mod laws; // laws of the definitions, as contracts
mod pacing; // which turn comes next
mod simulating; // over ports
mod turning; // turns over a link

pub use ends::{SimulateEnd, TurnsEnd};
pub use kinds::TurnKind;
pub use simulating::simulate;
pub use turning::serve_turns;
