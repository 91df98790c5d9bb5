//! Each law of the workers can be called.

use anyhow::Result;
use gev_acq::{
    client_goes_through_turns, readers_claim_one_size, readers_fill_the_retired,
    readers_fills_are_retired, readers_lay_nothing, readers_part_stays, served_fills_are_retired,
    turns_fill_the_retired,
};
use gev_apply::{the_applications_part_stays, turns_are_of_their_kind};
use gev_control::{
    a_list_stops_at_its_last_acknowledge, each_order_waits_for_the_one_before, heartbeats_are_told,
    lists_end_as_their_client, orders_are_submitted_in_order, orders_that_go_through_are_in_order,
    the_last_read_is_told, the_setup_ends_as_its_client, the_setup_stops_when_acknowledged,
    turns_are_steps_of_the_client, turns_of_a_list_are_steps_of_the_client,
};

/// Calls all laws.
pub fn call_all(rt: &HostRuntime) -> Result<()> {
    call_fills();
    call_readers();
    call_orders();
    call_lists();
    call_steps();
    print!(rt; "called")?;
    Ok(())
}

/// Calls the laws of what retires, and of the application.
fn call_fills() {
    served_fills_are_retired();
    turns_fill_the_retired();
    turns_are_of_their_kind();
    the_applications_part_stays();
}

/// Calls the laws of the reader.
fn call_readers() {
    readers_fill_the_retired();
    client_goes_through_turns();
    readers_part_stays();
    readers_fills_are_retired();
    readers_lay_nothing();
    readers_claim_one_size();
}

/// Calls the laws of orders.
fn call_orders() {
    orders_are_submitted_in_order();
    orders_that_go_through_are_in_order();
    each_order_waits_for_the_one_before();
    a_list_stops_at_its_last_acknowledge();
}

/// Calls the laws of a list's end.
fn call_lists() {
    lists_end_as_their_client();
    the_last_read_is_told();
    heartbeats_are_told();
    turns_of_a_list_are_steps_of_the_client();
}

/// Calls the laws of the setup, and of a turn's steps.
fn call_steps() {
    the_setup_stops_when_acknowledged();
    the_setup_ends_as_its_client();
    turns_are_steps_of_the_client();
}
