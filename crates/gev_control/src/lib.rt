//! The host's control part of a live run: lists of orders that are carried out, of which the camera's setup
//! is one, and what each turn of the reader hears and sends on the control link.
//!
//! `specs/OrderTurns.antt` says what a turn makes of a list, `specs/Controlled.antt` what one of the reader
//! makes of the client and sends, `specs/Sends.antt` what is sent up to the first send that fails.
#![tactic(auto)]

mod acq_end; // how the reader's worker ended
mod carried; // how a list was carried out
mod carrying; // lists of orders
mod controlling; // the control part of a turn
mod going_through; // lists that go on behind a refusal
mod laws; // laws of the definitions, as contracts
mod order; // a command for a camera
mod sending; // what is sent on the link
mod setting_up; // the camera's setup
mod telling; // what a heartbeat told
mod turn_end; // how a turn ended

pub use acq_end::AcqEnd;
pub use carried::{Carried, CarriedThrough, Refusal};
pub use carrying::carry_out;
pub use controlling::client_turn;
pub use going_through::carry_out_all;
pub use laws::{
    a_list_stops_at_its_last_acknowledge, each_order_waits_for_the_one_before, heartbeats_are_told,
    lists_end_as_their_client, orders_are_submitted_in_order, orders_that_go_through_are_in_order,
    the_last_read_is_told, the_setup_ends_as_its_client, the_setup_stops_when_acknowledged,
    turns_are_steps_of_the_client, turns_of_a_list_are_steps_of_the_client,
};
pub use order::Order;
pub use sending::send_unless;
pub use setting_up::setup;
pub use telling::heartbeat_value;
pub use turn_end::TurnEnd;
