//! The setup of a camera.

ghost use Rattle.std.specs.Prelude.{◌≡◌, false};
ghost use Rattle.client_machine.specs.Machine.{HasSubmittedNone};
ghost use Rattle.client_machine.specs.Setup.{setup_commands};
ghost use Rattle.gev_control.specs.Ends.{is_fault_end};
ghost use Rattle.gev_control.specs.Sends.{Fails};
ghost use Rattle.gev_control.specs.Orders.{commands_of};
ghost use Rattle.gev_control.specs.SetsUp.{SetsUp};

use crate::acq_end::AcqEnd;
use crate::carrying::carry_out;
use crate::order::Order;
use bootstrap_regs::addresses::{CCP, SCDA0, SCP0, SCPS0};
use client_machine::numbers::{CONTROL_ACCESS, SETUP_PACKET_SIZE};
use control_client::Client;
use gev_links::{Clock, Link};
use gev_types::Peer;
use std::sync::Wait;

// What makes a camera send its stream: control, the packets' size, the address, and the port, which opens the
// channel.
fn setup_orders(stream: Peer) -> [Order; 4]
    ensures { commands_of result ≡ setup_commands stream }
{
    [
        Order::WriteReg {
            address: CCP,
            value: CONTROL_ACCESS,
        },
        Order::WriteReg {
            address: SCPS0,
            value: SETUP_PACKET_SIZE,
        },
        Order::WriteReg {
            address: SCDA0,
            value: stream.address,
        },
        Order::WriteReg {
            address: SCP0,
            value: u32::from(stream.port),
        },
    ]
}

/// Makes a camera send its stream to the peer `stream`: carries out the four commands of the setup, each once the
/// one before it was acknowledged, and sends what the client has to send to the peer `camera`.
///
/// It ends with Stopped once all four commands were acknowledged, where a command had no answer or was refused,
/// and where a call of `control` failed; never with Spent.
pub fn setup<R: Wait, L: Link, C: Clock>(
    rt: &R,
    client: &mut Client,
    control: &mut L,
    clock: &mut C,
    camera: Peer,
    stream: Peer,
) -> AcqEnd
    requires { HasSubmittedNone client.old }
    ensures sets_up { SetsUp camera stream
        (record { heard = L.received control.old; sent = L.sent control.old; told = C.told clock.old; client = client.old })
        (record { heard = L.received control.new; sent = L.sent control.new; told = C.told clock.new; client = client.new }) result }
    ensures fails { Fails false (is_fault_end result) (L.faults control.old) (L.faults control.new) }
{
    let orders = setup_orders(stream);
    carry_out(rt, client, control, clock, camera, &orders).end
}
