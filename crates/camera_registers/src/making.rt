//! One access.

ghost use Rattle.std.specs.Prelude.{◌≡◌, false};
ghost use Rattle.client_machine.specs.Machine.{IsIdle};
ghost use Rattle.gev_control.specs.Orders.{command_of};
ghost use Rattle.gev_control.specs.Sends.{Fails};
ghost use Rattle.camera_registers.specs.Registers.{access_command, register_in, end_by, is_fault, MakesAccess};

use crate::register_fault::RegisterFault;
use camera_words::Access;
use control_client::Client;
use gev_control::{AcqEnd, Order, carry_out};
use gev_links::{Clock, Link};
use gev_types::Peer;
use std::sync::Wait;

/// What an access asks of the camera.
fn order_of(access: Access) -> Order
    ensures { command_of result ≡ access_command access }
{
    match access {
        Access::Read { register } => Order::ReadReg { address: register },
        Access::Write { register, value } => Order::WriteReg {
            address: register,
            value,
        },
    }
}

/// The register of an access.
fn register_in(access: Access) -> u32
    ensures { result ≡ register_in access }
{
    match access {
        Access::Read { register } => register,
        Access::Write { register, .. } => register,
    }
}

/// How an access whose command ended so ends all, if it does.
fn end_by(access: Access, end: AcqEnd) -> Option<RegisterFault>
    ensures { result ≡ end_by access end }
{
    match end {
        AcqEnd::Stopped => None,
        AcqEnd::Spent => Some(RegisterFault::LinkFault),
        AcqEnd::Fault => Some(RegisterFault::LinkFault),
        AcqEnd::NoAnswer(req) => Some(RegisterFault::NoAnswer(req)),
        AcqEnd::Refused(status) => Some(RegisterFault::RefusedAt {
            register: register_in(access),
            status,
        }),
    }
}

/// Makes an access: it's Ok where the camera acknowledged it with status 0. The value of a read is the client's then.
pub(crate) fn make_access<R: Wait, L: Link, C: Clock>(
    rt: &R,
    client: &mut Client,
    link: &mut L,
    clock: &mut C,
    camera: Peer,
    access: Access,
) -> Result<(), RegisterFault>
    requires { IsIdle client.old }
    ensures makes { MakesAccess camera access
        (record { heard = L.received link.old; sent = L.sent link.old; told = C.told clock.old; client = client.old })
        (record { heard = L.received link.new; sent = L.sent link.new; told = C.told clock.new; client = client.new }) result }
    ensures idle { is_fault result ≡ false → IsIdle client.new }
    ensures fails { Fails false (is_fault result) (L.faults link.old) (L.faults link.new) }
{
    let orders = [order_of(access)];
    let end = carry_out(rt, client, link, clock, camera, &orders).end;
    match end_by(access, end) {
        Some(fault) => Err(fault),
        None => Ok(()),
    }
}
