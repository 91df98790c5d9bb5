//! The control client as a machine: what it is after each event, and what it tells its caller.
//!
//! `specs/Machine.antt` defines it, `specs/Events.antt` its lists of events and `specs/Setup.antt` the
//! commands that open a stream; the functions of `laws` say what its outcomes mean. The code is in a crate above.
#![tactic(auto)]

mod laws;
pub mod numbers;
mod outcome;

pub use laws::{
    a_client_is_new_until_a_submission, a_client_is_worked, a_client_keeps_its_limit,
    no_answer_comes_after_three_sends, numbers_are_the_defined_ones,
    outcomes_that_end_a_command_are_exact, the_setup_may_be_submitted,
};
pub use outcome::Outcome;
