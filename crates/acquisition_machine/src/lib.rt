//! The acquisition machine: a window of open blocks that take an image stream's packets.
//!
//! `specs/Machine.antt` says what a datagram, the outcome of a claim, a moment, a stop and a start make
//! of the open blocks, `specs/Blocks.antt` when a block retires and what it asks for, and
//! `specs/Runs.antt` what lists of inputs lead to. `specs/Sound.antt` says what holds of every state,
//! and the laws say the rest in words of their own. The lists of inputs in `specs/Worked.antt` and
//! `specs/WorkedTimes.antt` are written out with all that the machine makes of them.
//!
//! `specs/Erased.antt` leaves places or counts out of states, inputs and turns, and `specs/Turns.antt` says
//! which inputs the turns of a recorded run are; `erased_laws` has what is true of them.
//!
//! The types here are those that a receiver's contracts share with the definitions, and the mark that a
//! recorder keeps of each turn.
#![tactic(auto)]

mod config; // how blocks are received
mod counts; // what is counted
mod erased_laws; // what the machine doesn't read, and what a recorded run tells it
mod laws; // laws of the definitions, as contracts
mod mark; // what a recorder keeps of a turn
mod need; // the answer to a datagram
mod retired; // a block that retired with its buffer

pub use config::AcqConfig;
pub use counts::Counts;
pub use erased_laws::{counts_are_not_read, places_are_not_read, runs_agree};
pub use laws::{
    asks_once, blocks_are_in_order, blocks_are_worked, blocks_retire_in_order, bound_never_falls,
    causes_are_true, claims_follow_buffer, fills_are_images, fills_have_sizes, fills_keep_frames,
    heard_is_what_came, machine_settles, no_buffer_is_lost, requests_are_few, requests_are_missing,
    retired_heard_what_came, rounds_are_few, runs_are_joined, steps_keep_order, times_are_worked,
    turns_are_counted,
};
pub use mark::Mark;
pub use need::{Need, Why};
pub use retired::Retired;
