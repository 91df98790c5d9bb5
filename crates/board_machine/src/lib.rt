//! The board machine: what the actors of one stream may do with its 15 buffers, as definitions and laws.
//!
//! `specs/Machine.antt` has the board's state and each act's condition and effect,
//! `specs/Histories.antt` the histories that the machine can make, `specs/Adding.antt` what one actor
//! adds to a board, `specs/Actors.antt` whose the entries of a history are, `specs/Owners.antt` who owns
//! each buffer, `specs/Kinds.antt` histories with no act of a kind, `specs/Ids.antt` the ids of buffers,
//! `specs/Sizes.antt` the sizes of buffers, `specs/Handout.antt` the order in which filled
//! buffers are handed out, `specs/Acts.antt` what an actor may ask for, and `specs/Laws.antt` what holds
//! of every run. The functions of `src/laws.rt` carry the laws; no value of the types here is made when a
//! program runs, but for what a take answers.
#![tactic(auto)]

mod events;
mod laws;

pub use events::{Entry, Event, TakeEnd};
pub use laws::{
    actors_are_born, actors_stay, acts_leave_others, claims_are_lowest, each_act_has_one_answer,
    each_act_keeps_owners, empty_board_has_owners, empty_history, empty_output_stays,
    ended_actors_do_nothing, entries_are_theirs, generations_never_fall, handed_are_own,
    hands_hold_places, held_buffers_stay, histories_grow, histories_grow_by_lists,
    joins_end_actors, lone_actors_act_next, lone_actors_stay_alone, no_other_act_has_an_answer,
    one_size_stays, only_joins_end_actors, only_own_takes_count, open_streams_take_fills,
    others_leave_hands, owners_are_counted, places_rise, run_word_is_small, run_word_stays,
    runs_are_legal, runs_are_owned, runs_hand_out, splits_add_actors, splits_are_counted,
    takes_hand_first, unborn_actors_do_nothing, worked_history_runs,
};
