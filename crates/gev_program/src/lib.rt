//! The program's call: what `gevacq` does with its words, its input, its output and its ports.
//!
//! `specs/Runs.antt` says what a live run over ports did, and `specs/Bound.antt` what ports gave it and got back; what
//! the other commands do is said by `gev_top`. `specs/Cameras.antt` says what the commands do that meet a camera on the
//! network, `specs/Simulation.antt` what the one does that simulates it, `specs/Reception.antt` what the one does that
//! receives its frames. `specs/Replayed.antt` and `specs/Explained.antt`
//! say the headline of replays and of explanations.
#![tactic(auto)]

mod binding; // three links and three clocks from ports
mod meeting; // cameras on the network
mod reception; // the frames of a camera on the network
mod recording; // a recorded live run over ports
mod returning; // links and clocks back to the ports
mod running; // a live run over ports
mod simulation; // a simulated camera on the network
mod top; // the call of the program

pub use binding::bind_three;
pub use recording::run_recorded;
pub use returning::give_back;
pub use running::run_live;
pub use top::gevacq_top;
