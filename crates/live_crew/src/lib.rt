//! How a run of workers as threads begins, how they work, each with a pass of its own, and laws of workers that come home.
//!
//! `specs/Prepared.antt` says what the board sees of the beginning, `specs/Crews.antt` what is known of workers that ran
//! at the same time, and `specs/Stops.antt` how one of them stops the run. `specs/Homes.antt` has workers that come home,
//! and `specs/HomeLaws.antt` what is true of them and of passes that are split off one after another.
#![tactic(auto)]

mod laws; // laws of workers that come home, as contracts
mod preparing; // the beginning
mod running; // two and three workers as threads
mod stopping; // a worker that stops the run
mod worked; // what a worker gives back

pub use laws::{split_numbers_are_apart, workers_bring_home};
pub use preparing::prepare;
pub use running::{run_three, run_two};
pub use stopping::stop_if;
pub use worked::Worked;
