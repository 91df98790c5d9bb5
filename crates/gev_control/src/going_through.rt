//! Lists of orders that go on behind a refusal.

ghost use Rattle.std.specs.Prelude.{◌≡◌, false};
ghost use Rattle.client_machine.specs.Machine.{IsIdle};
ghost use Rattle.gev_control.specs.Ends.{is_fault_end, ends_in_fault};
ghost use Rattle.gev_control.specs.Sends.{Fails};
ghost use Rattle.gev_control.specs.Orders.{command_of, commands_of};
ghost use Rattle.gev_control.specs.CarriesThrough.{given_up, first_refusal, refusal_after, CarriesOne, CarriesThrough};

use crate::acq_end::AcqEnd;
use crate::carried::{CarriedThrough, Refusal};
use crate::carrying::carry_out;
use crate::order::Order;
use control_client::Client;
use gev_links::{Clock, Link};
use gev_types::Peer;
use std::sync::Wait;

// The end with which no further order is submitted, if it's one.
fn given_up(end: AcqEnd) -> Option<AcqEnd>
    ensures { result ≡ given_up end }
{
    match end {
        AcqEnd::Stopped => None,
        AcqEnd::Refused(_) => None,
        AcqEnd::Spent => Some(AcqEnd::Spent),
        AcqEnd::Fault => Some(AcqEnd::Fault),
        AcqEnd::NoAnswer(req) => Some(AcqEnd::NoAnswer(req)),
    }
}

// The first refusal, where one more comes.
fn first_refusal(refused: Option<Refusal>, place: usize, status: u16) -> Option<Refusal>
    ensures { result ≡ first_refusal refused place status }
{
    match refused {
        Some(refusal) => Some(refusal),
        None => Some(Refusal { place, status }),
    }
}

// The first refusal after the order at this place ended so.
fn refusal_after(refused: Option<Refusal>, place: usize, end: AcqEnd) -> Option<Refusal>
    ensures { result ≡ refusal_after refused place end }
{
    match end {
        AcqEnd::Refused(status) => first_refusal(refused, place, status),
        AcqEnd::Stopped => refused,
        AcqEnd::Spent => refused,
        AcqEnd::Fault => refused,
        AcqEnd::NoAnswer(_) => refused,
    }
}

// Carries out the order at a place alone: the end with which no further one is submitted, if it's one.
fn carry_one<R: Wait, L: Link, C: Clock>(
    rt: &R,
    client: &mut Client,
    control: &mut L,
    clock: &mut C,
    camera: Peer,
    order: Order,
    place: usize,
    refused: &mut Option<Refusal>,
) -> Option<AcqEnd>
    ensures one { CarriesOne camera (command_of order) place refused.old refused.new
        (record { heard = L.received control.old; sent = L.sent control.old; told = C.told clock.old; client = client.old })
        (record { heard = L.received control.new; sent = L.sent control.new; told = C.told clock.new; client = client.new }) result }
    ensures fails { Fails false (ends_in_fault result) (L.faults control.old) (L.faults control.new) }
{
    let orders = [order];
    let end = carry_out(rt, client, control, clock, camera, &orders).end;
    *refused = refusal_after(*refused, place, end);
    given_up(end)
}

/// Carries out a list of orders as `carry_out` does, but goes on with the next one where one was refused, as
/// it's right for the orders that stop a camera. A command that had no answer and a call of `control` that
/// failed end it.
///
/// The client has no command outstanding: one that has waits for it first by `carry_out` of no orders.
pub fn carry_out_all<R: Wait, L: Link, C: Clock>(
    rt: &R,
    client: &mut Client,
    control: &mut L,
    clock: &mut C,
    camera: Peer,
    orders: &[Order],
) -> CarriedThrough
    requires { IsIdle client.old }
    ensures carries_through { CarriesThrough camera (commands_of orders.now)
        (record { heard = L.received control.old; sent = L.sent control.old; told = C.told clock.old; client = client.old })
        (record { heard = L.received control.new; sent = L.sent control.new; told = C.told clock.new; client = client.new }) result }
    ensures fails { Fails false (is_fault_end result.end) (L.faults control.old) (L.faults control.new) }
{
    let mut refused = None;
    for place in 0..orders.len() {
        match carry_one(
            rt,
            client,
            control,
            clock,
            camera,
            orders[place],
            place,
            &mut refused,
        ) {
            Some(end) => return CarriedThrough { end, refused },
            None => {}
        }
    }
    CarriedThrough {
        end: AcqEnd::Stopped,
        refused,
    }
}
