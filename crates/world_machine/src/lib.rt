//! The world of a soak run: camera, network, client and host as one machine, in rounds of 10 ms.
//!
//! `specs/State.antt` says what a world is, `specs/Rounds.antt` what a round does, and `specs/Soak.antt`
//! what a run writes and how it ends. The host is whatever has the functions of `Host`, so this crate
//! stands on no receiver and no board.
//!
//! A client and a camera with a network between them that loses, repeats and reorders make a control session:
//! `specs/Sessions.antt` says what one is, and `specs/Schedule.antt` what may happen. The functions of `laws` and
//! `session_laws` say what follows, those of `rows` and `session_rows` work examples through. The code is in
//! a crate above.
#![tactic(auto)]

mod laws;
mod rows;
mod session_laws;
mod session_rows;

pub use laws::{
    commands_of_a_run_act_once, host_hears_what_the_camera_gave, round_submits_at_most_one,
    rounds_are_acts_of_a_session, run_ends_in_a_round, run_has_one_text_and_one_end,
    shortness_is_set_first,
};
pub use rows::{nothing_comes_through, setup_alone_is_a_run};
pub use session_laws::{
    a_line_is_its_client_and_its_camera, acked_commands_were_executed, commands_act_once,
};
pub use session_rows::worked_schedule_holds;
