//! Lists of orders, carried out one after the other.

ghost use Rattle.std.specs.Prelude.{◌≡◌, ◌≤◌, false, length};
ghost use Rattle.gev_links.specs.Links.{receive_room};
ghost use Rattle.gev_control.specs.Ends.{is_fault_end, ends_in_fault};
ghost use Rattle.gev_control.specs.Sends.{Fails};
ghost use Rattle.gev_control.specs.Orders.{commands_of};
ghost use Rattle.gev_control.specs.OrderTurns.{progress, next_part, end_at};
ghost use Rattle.gev_control.specs.CarriesOut.{HasToWait, HearsOrder, TakesTurn, CarriesTo};

use crate::acq_end::AcqEnd;
use crate::carried::Carried;
use crate::controlling::tick_client;
use crate::order::{Order, submit_order};
use crate::turn_end::TurnEnd;
use control_client::{Client, Outcome};
use gev_links::{Clock, Link};
use gev_types::Peer;
use idle_rests::Rest;
use std::sync::Wait;

// The room of a receive, in bytes.
const RECEIVE_ROOM: usize = 9000;

// Submits the next order where no command is outstanding and one is left: how many were submitted by now.
fn submit_next(client: &mut Client, orders: &[Order], begun: usize, moment: u64) -> usize
    requires { begun ≤ length orders.now }
    ensures begins { progress client.new result ≡ (next_part (commands_of orders.now) (progress client.old begun) moment).state }
    ensures few { result ≤ length orders.now }
{
    if !client.is_idle() {
        return begun;
    }
    let Some(order) = orders.get(begun).copied() else {
        return begun;
    };
    submit_order(client, order, moment);
    begun + 1
}

// How the outcome of a receive ends a list of so many orders, of which so many were submitted.
fn end_by(outcome: Outcome, size: usize, begun: usize) -> Option<AcqEnd>
    ensures { result ≡ end_at size begun outcome }
{
    match outcome {
        Outcome::Acked => {
            if begun == size {
                Some(AcqEnd::Stopped)
            } else {
                None
            }
        }
        Outcome::Refused(status) => Some(AcqEnd::Refused(status)),
        Outcome::Waiting(_) => None,
        Outcome::Idle => None,
        Outcome::NoAnswer(_) => None,
    }
}

// Receives once and gives the client what came: how the turns ended, if they did.
fn hear_next<L: Link>(
    client: &mut Client,
    control: &mut L,
    size: usize,
    begun: usize,
    moment: u64,
    out: &mut [u8],
) -> Option<AcqEnd>
    requires room { length out.old ≡ receive_room }
    ensures hears { HearsOrder size client.old begun moment (L.received control.old) (L.received control.new) client.new result }
    ensures sent { L.sent control.new ≡ L.sent control.old }
    ensures fails { Fails false (ends_in_fault result) (L.faults control.old) (L.faults control.new) }
{
    match control.recv(out) {
        Ok(came) => match came {
            Some((count, _)) => end_by(client.receive(&out[..count], moment), size, begun),
            None => None,
        },
        Err(_) => Some(AcqEnd::Fault),
    }
}

// One turn, before which `begun` orders were submitted: how the turns ended, if they did.
fn take_turn<L: Link>(
    client: &mut Client,
    control: &mut L,
    camera: Peer,
    orders: &[Order],
    begun: &mut usize,
    moment: u64,
    out: &mut [u8],
) -> Option<AcqEnd>
    requires few { begun.old ≤ length orders.now }
    requires room { length out.old ≡ receive_room }
    ensures turn { TakesTurn camera (commands_of orders.now) (progress client.old begun.old) (progress client.new begun.new) moment
        (L.received control.old) (L.received control.new) (L.sent control.old) (L.sent control.new) result }
    ensures few { begun.new ≤ length orders.now }
    ensures fails { Fails false (ends_in_fault result) (L.faults control.old) (L.faults control.new) }
{
    *begun = submit_next(client, orders, *begun, moment);
    match tick_client(client, control, camera, moment) {
        TurnEnd::GoesOn => hear_next(client, control, orders.len(), *begun, moment, out),
        TurnEnd::Fault => Some(AcqEnd::Fault),
        TurnEnd::NoAnswer(req) => Some(AcqEnd::NoAnswer(req)),
        TurnEnd::Refused(status) => Some(AcqEnd::Refused(status)),
    }
}

/// Carries out a list of orders: submits them to the client, each once the one before it was acknowledged, and
/// sends what the client has to send to the peer `camera`. A command that is outstanding is waited for first;
/// with no order at all it alone is. What the last order read is the client's `body` then.
///
/// A turn reads the clock once, submits the next order where none is outstanding, lets the client tick and
/// sends what it has to send, receives once on `control` and gives the client what came. The turns end with
/// Stopped once all orders were acknowledged, where a command had no answer or was refused, and where a call of
/// `control` failed; never with Spent. It rests between turns once there were some.
pub fn carry_out<R: Wait, L: Link, C: Clock>(
    rt: &R,
    client: &mut Client,
    control: &mut L,
    clock: &mut C,
    camera: Peer,
    orders: &[Order],
) -> Carried
    requires { HasToWait (commands_of orders.now) client.old }
    ensures carries_out { CarriesTo camera (commands_of orders.now)
        (record { heard = L.received control.old; sent = L.sent control.old; told = C.told clock.old; client = client.old })
        (record { heard = L.received control.new; sent = L.sent control.new; told = C.told clock.new; client = client.new }) result }
    ensures fails { Fails false (is_fault_end result.end) (L.faults control.old) (L.faults control.new) }
{
    let mut out = [0; RECEIVE_ROOM];
    let mut begun = 0;
    let mut rest = Rest::new();
    'turns: for _ in rt.forever() {
        let moment = clock.now();
        match take_turn(
            client, control, camera, orders, &mut begun, moment, &mut out,
        ) {
            Some(end) => return Carried { end, begun },
            None => rest.rest(rt),
        }
    }
    unreachable!()
}
