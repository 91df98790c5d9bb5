//! One step.

ghost use Rattle.std.specs.Prelude.{◌≡◌, false, IfOk};
ghost use Rattle.client_machine.specs.Machine.{IsIdle};
ghost use Rattle.gev_control.specs.CarriesOut.{CarriesOut};
ghost use Rattle.gev_control.specs.Controlled.{listed};
ghost use Rattle.gev_control.specs.Ends.{is_fault_end};
ghost use Rattle.gev_control.specs.Orders.{commands_of};
ghost use Rattle.gev_control.specs.Sends.{Fails};
ghost use Rattle.camera_control.specs.Steps.{commands_in, is_held, held_cause, lost_cause, told_cause, refused_cause, cause_of, passed_refusal, refusal_in, value_read};
ghost use Rattle.camera_control.specs.Taking.{IsReady, MakesStep, FailsAs};

use crate::control_end::ControlEnd;
use crate::step::Step;
use bootstrap_regs::addresses::CCP;
use control_client::Client;
use gev_control::{AcqEnd, Order, carry_out};
use gev_links::{Clock, Link};
use gev_types::Peer;
use std::sync::Wait;

// The status of a command that only the controlling application may send.
const ACCESS_DENIED: u16 = 0x8006;

/// Whether an application controls a camera, by its control channel privilege: one of the two lowest bits is set.
pub fn is_held(privilege: u32) -> bool
    ensures { result ≡ is_held privilege }
{
    privilege % 4 != 0
}

// Whether another application has control, by what was read.
fn held_cause(told: Option<u32>) -> Option<ControlEnd>
    ensures { result ≡ held_cause told }
{
    match told {
        Some(privilege) => {
            if is_held(privilege) {
                Some(ControlEnd::Controlled)
            } else {
                None
            }
        }
        None => None,
    }
}

// Whether control was lost, by what a heartbeat read.
fn lost_cause(heartbeat: bool, told: Option<u32>) -> Option<ControlEnd>
    ensures { result ≡ lost_cause heartbeat told }
{
    if !heartbeat {
        return None;
    }
    match told {
        Some(privilege) => {
            if is_held(privilege) {
                None
            } else {
                Some(ControlEnd::ControlLost)
            }
        }
        None => None,
    }
}

// How a step that was acknowledged with success ends all, if it does.
fn told_cause(step: Step, told: Option<u32>) -> Option<ControlEnd>
    ensures { result ≡ told_cause step told }
{
    match step {
        Step::Ask => held_cause(told),
        Step::Read { .. } => None,
        Step::Write { .. } => None,
        Step::Stop { .. } => None,
        Step::Await { heartbeat } => lost_cause(heartbeat, told),
    }
}

// How a step that was refused ends all, if it does.
fn refused_cause(step: Step, status: u16) -> Option<ControlEnd>
    ensures { result ≡ refused_cause step status }
{
    match step {
        Step::Ask => {
            if status == ACCESS_DENIED {
                Some(ControlEnd::Controlled)
            } else {
                Some(ControlEnd::RefusedAt {
                    register: CCP,
                    status,
                })
            }
        }
        Step::Read { .. } => None,
        Step::Write { register, .. } => Some(ControlEnd::RefusedAt { register, status }),
        Step::Stop { .. } => None,
        Step::Await { .. } => None,
    }
}

// How a step that ended so, and told this, ends all, if it does.
fn cause_of(step: Step, end: AcqEnd, told: Option<u32>) -> Option<ControlEnd>
    ensures { result ≡ cause_of step end told }
{
    match end {
        AcqEnd::Stopped => told_cause(step, told),
        AcqEnd::Spent => Some(ControlEnd::LinkFault),
        AcqEnd::Fault => Some(ControlEnd::LinkFault),
        AcqEnd::NoAnswer(req) => Some(ControlEnd::NoAnswer(req)),
        AcqEnd::Refused(status) => refused_cause(step, status),
    }
}

// The refusal that is told although the next step comes.
fn passed_refusal(step: Step, status: u16) -> Option<ControlEnd>
    ensures { result ≡ passed_refusal step status }
{
    match step {
        Step::Ask => None,
        Step::Read { .. } => None,
        Step::Write { .. } => None,
        Step::Stop { register, .. } => Some(ControlEnd::RefusedAt { register, status }),
        Step::Await { heartbeat: false } => None,
        Step::Await { heartbeat: true } => Some(ControlEnd::RefusedAt {
            register: CCP,
            status,
        }),
    }
}

// The same of a step that ended so.
pub(crate) fn refusal_in(step: Step, end: AcqEnd) -> Option<ControlEnd>
    ensures { result ≡ refusal_in step end }
{
    match end {
        AcqEnd::Stopped => None,
        AcqEnd::Spent => None,
        AcqEnd::Fault => None,
        AcqEnd::NoAnswer(_) => None,
        AcqEnd::Refused(status) => passed_refusal(step, status),
    }
}

// What was read, where it was acknowledged.
pub(crate) fn value_read(end: AcqEnd, told: Option<u32>) -> Option<u32>
    ensures { result ≡ value_read end told }
{
    match end {
        AcqEnd::Stopped => told,
        AcqEnd::Spent => None,
        AcqEnd::Fault => None,
        AcqEnd::NoAnswer(_) => None,
        AcqEnd::Refused(_) => None,
    }
}

// What a step asks of the camera, if it does.
fn order_of(step: Step) -> Option<Order>
    ensures { commands_in step ≡ commands_of (listed result) }
{
    match step {
        Step::Ask => Some(Order::ReadReg { address: CCP }),
        Step::Read { register } => Some(Order::ReadReg { address: register }),
        Step::Write { register, value } => Some(Order::WriteReg {
            address: register,
            value,
        }),
        Step::Stop { register, value } => Some(Order::WriteReg {
            address: register,
            value,
        }),
        Step::Await { .. } => None,
    }
}

// Carries out what a step asks, or waits for the command that is outstanding.
fn carry<R: Wait, L: Link, C: Clock>(
    rt: &R,
    client: &mut Client,
    control: &mut L,
    clock: &mut C,
    camera: Peer,
    step: Step,
) -> AcqEnd
    requires { IsReady step client.old }
    ensures carried { CarriesOut camera (commands_in step)
        (record { heard = L.received control.old; sent = L.sent control.old; told = C.told clock.old; client = client.old })
        (record { heard = L.received control.new; sent = L.sent control.new; told = C.told clock.new; client = client.new }) result }
    ensures fails { Fails false (is_fault_end result) (L.faults control.old) (L.faults control.new) }
{
    match order_of(step) {
        Some(order) => {
            let orders = [order];
            carry_out(rt, client, control, clock, camera, &orders).end
        }
        None => carry_out(rt, client, control, clock, camera, &[]).end,
    }
}

// Makes a step: how its command ended, or how it ended all.
pub(crate) fn make_step<R: Wait, L: Link, C: Clock>(
    rt: &R,
    client: &mut Client,
    control: &mut L,
    clock: &mut C,
    camera: Peer,
    step: Step,
) -> Result<AcqEnd, ControlEnd>
    requires { IsReady step client.old }
    ensures makes { MakesStep camera step
        (record { heard = L.received control.old; sent = L.sent control.old; told = C.told clock.old; client = client.old })
        (record { heard = L.received control.new; sent = L.sent control.new; told = C.told clock.new; client = client.new }) result }
    ensures idle { IfOk result (λ _. IsIdle client.new) }
    ensures fails { FailsAs result (L.faults control.old) (L.faults control.new) }
{
    let end = carry(rt, client, control, clock, camera, step);
    match cause_of(step, end, client.value()) {
        Some(cause) => Err(cause),
        None => Ok(end),
    }
}
