//! The application of a live run on the board that threads share: it takes filled buffers, tells each, and
//! gives it back to the acquisition.
//!
//! `specs/Looks.antt` has a turn and its events, `specs/Kinds.antt` their kinds, `specs/TakenIds.antt` the
//! ids of taken buffers, and `specs/Applied.antt` what all turns together did.
#![tactic(auto)]

mod applying; // all turns
mod handing; // what becomes of a taken buffer
mod laws; // laws of the definitions, as contracts
mod look_end; // how a turn ended
mod looking; // one turn
mod working; // the worker, with what it works with by value

pub use applying::apply;
pub use laws::{the_applications_part_stays, turns_are_of_their_kind};
pub use working::{ApplicationDone, work_application};
