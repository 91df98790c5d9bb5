//! The calls on a data stream, its buffers and its event, as EMVA GenTL has them: what each call answers
//! and what it does on the board, as relations that every board of this project keeps, and the answers
//! that follow from what was found.
//!
//! Which buffer a new block gets where the application is slower than its camera follows the mode:
//! `specs/Modes.antt` has the claims and fills of each, `specs/Dropped.antt` the dropped buffers of a
//! history, and `specs/Laws.antt` what holds of both.
#![tactic(auto)]

mod ends; // how a fill ended
pub mod laws; // laws of modes and dropped buffers, as contracts
mod loans; // the information of a buffer that is a loan
mod mode; // the buffer handling modes
mod refusals; // answers that follow from what was found

pub use board_machine::TakeEnd;
pub use ends::FillEnd;
pub use loans::loan_info;
pub use mode::Mode;
pub use refusals::{as_busy, grab_refusal, is_gone, shown_run};
