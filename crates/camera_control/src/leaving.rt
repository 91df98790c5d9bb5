//! A camera is let go.

ghost use Rattle.std.specs.Prelude.{◌≡◌, [], ◌∷◌, ◌++◌, map, IfOk};
ghost use Rattle.bootstrap_regs.specs.Addresses.{CCP as CCP_AT, SCP0 as SCP0_AT};
ghost use Rattle.client_machine.specs.Machine.{IsIdle};
ghost use Rattle.camera_control.specs.declared.step.Step.TheVariants as step;
ghost use Rattle.camera_control.specs.Steps.{stop_step, await_steps};
ghost use Rattle.camera_control.specs.Taking.{earlier, end_by, RunsOn, Leaves, FailsAs};

use crate::control_end::ControlEnd;
use crate::making::{make_step, refusal_in};
use crate::register_write::RegisterWrite;
use crate::step::Step;
use bootstrap_regs::addresses::{CCP, SCP0};
use control_client::Client;
use gev_links::{Clock, Link};
use gev_types::Peer;
use std::sync::Wait;

// The earlier of two refusals.
fn earlier(first: Option<ControlEnd>, later: Option<ControlEnd>) -> Option<ControlEnd>
    ensures { result ≡ earlier first later }
{
    match first {
        Some(refusal) => Some(refusal),
        None => later,
    }
}

// Waits for the command that is outstanding, if one is: its refusal.
fn await_command<R: Wait, L: Link, C: Clock>(
    rt: &R,
    client: &mut Client,
    control: &mut L,
    clock: &mut C,
    camera: Peer,
    heartbeat: bool,
) -> Result<Option<ControlEnd>, ControlEnd>
    ensures runs { RunsOn camera (await_steps client.old.asked heartbeat)
        (record { heard = L.received control.old; sent = L.sent control.old; told = C.told clock.old; client = client.old })
        (record { heard = L.received control.new; sent = L.sent control.new; told = C.told clock.new; client = client.new }) result }
    ensures idle { IfOk result (λ _. IsIdle client.new) }
    ensures fails { FailsAs result (L.faults control.old) (L.faults control.new) }
{
    if client.is_idle() {
        return Ok(None);
    }
    match make_step(
        rt,
        client,
        control,
        clock,
        camera,
        Step::Await { heartbeat },
    ) {
        Ok(end) => Ok(refusal_in(Step::Await { heartbeat }, end)),
        Err(cause) => Err(cause),
    }
}

// Writes a register: the refusal.
fn stop_one<R: Wait, L: Link, C: Clock>(
    rt: &R,
    client: &mut Client,
    control: &mut L,
    clock: &mut C,
    camera: Peer,
    register: u32,
    value: u32,
) -> Result<Option<ControlEnd>, ControlEnd>
    requires { IsIdle client.old }
    ensures runs { RunsOn camera (step.Stop register value ∷ [])
        (record { heard = L.received control.old; sent = L.sent control.old; told = C.told clock.old; client = client.old })
        (record { heard = L.received control.new; sent = L.sent control.new; told = C.told clock.new; client = client.new }) result }
    ensures idle { IfOk result (λ _. IsIdle client.new) }
    ensures fails { FailsAs result (L.faults control.old) (L.faults control.new) }
{
    match make_step(
        rt,
        client,
        control,
        clock,
        camera,
        Step::Stop { register, value },
    ) {
        Ok(end) => Ok(refusal_in(Step::Stop { register, value }, end)),
        Err(cause) => Err(cause),
    }
}

// Writes registers, in order, and goes on behind a refusal: the first one.
fn stop_each<R: Wait, L: Link, C: Clock>(
    rt: &R,
    client: &mut Client,
    control: &mut L,
    clock: &mut C,
    camera: Peer,
    stops: &[RegisterWrite],
) -> Result<Option<ControlEnd>, ControlEnd>
    requires { IsIdle client.old }
    ensures runs { RunsOn camera (map stop_step stops.now)
        (record { heard = L.received control.old; sent = L.sent control.old; told = C.told clock.old; client = client.old })
        (record { heard = L.received control.new; sent = L.sent control.new; told = C.told clock.new; client = client.new }) result }
    ensures idle { IfOk result (λ _. IsIdle client.new) }
    ensures fails { FailsAs result (L.faults control.old) (L.faults control.new) }
{
    let mut refused = None;
    for place in 0..stops.len() {
        let stop = stops[place];
        match stop_one(
            rt,
            client,
            control,
            clock,
            camera,
            stop.register,
            stop.value,
        ) {
            Ok(refusal) => refused = earlier(refused, refusal),
            Err(cause) => return Err(cause),
        }
    }
    Ok(refused)
}

// Closes the stream, and gives control away: the first refusal.
fn give_away<R: Wait, L: Link, C: Clock>(
    rt: &R,
    client: &mut Client,
    control: &mut L,
    clock: &mut C,
    camera: Peer,
) -> Result<Option<ControlEnd>, ControlEnd>
    requires { IsIdle client.old }
    ensures runs { RunsOn camera (step.Stop SCP0_AT 0 ∷ step.Stop CCP_AT 0 ∷ [])
        (record { heard = L.received control.old; sent = L.sent control.old; told = C.told clock.old; client = client.old })
        (record { heard = L.received control.new; sent = L.sent control.new; told = C.told clock.new; client = client.new }) result }
    ensures fails { FailsAs result (L.faults control.old) (L.faults control.new) }
{
    let stops = [
        RegisterWrite {
            register: SCP0,
            value: 0,
        },
        RegisterWrite {
            register: CCP,
            value: 0,
        },
    ];
    stop_each(rt, client, control, clock, camera, &stops)
}

// Stops the camera, closes the stream, and gives control away: the first refusal.
fn stop_camera<R: Wait, L: Link, C: Clock>(
    rt: &R,
    client: &mut Client,
    control: &mut L,
    clock: &mut C,
    camera: Peer,
    stops: &[RegisterWrite],
) -> Result<Option<ControlEnd>, ControlEnd>
    requires { IsIdle client.old }
    ensures runs { RunsOn camera (map stop_step stops.now ++ step.Stop SCP0_AT 0 ∷ step.Stop CCP_AT 0 ∷ [])
        (record { heard = L.received control.old; sent = L.sent control.old; told = C.told clock.old; client = client.old })
        (record { heard = L.received control.new; sent = L.sent control.new; told = C.told clock.new; client = client.new }) result }
    ensures fails { FailsAs result (L.faults control.old) (L.faults control.new) }
{
    match stop_each(rt, client, control, clock, camera, stops) {
        Ok(first) => match give_away(rt, client, control, clock, camera) {
            Ok(later) => Ok(earlier(first, later)),
            Err(cause) => Err(cause),
        },
        Err(cause) => Err(cause),
    }
}

// How all ended, by the first refusal.
fn end_by(refused: Option<ControlEnd>) -> Result<(), ControlEnd>
    ensures { result ≡ end_by refused }
{
    match refused {
        Some(refusal) => Err(refusal),
        None => Ok(()),
    }
}

/// Lets a camera go: waits for the command that is outstanding, if one is, makes the writes `stops` in order, closes the
/// stream, and gives control away, each command once the one before it was acknowledged or refused. It's Ok where none
/// was refused, else the first refusal.
///
/// A command that had no answer and a call of `control` that failed end it, and so does a heartbeat that was waited for
/// and told that control was lost. `heartbeat` says whether a command that is outstanding is one, as it is where the
/// camera was taken.
pub fn let_go<R: Wait, L: Link, C: Clock>(
    rt: &R,
    client: &mut Client,
    control: &mut L,
    clock: &mut C,
    camera: Peer,
    heartbeat: bool,
    stops: &[RegisterWrite],
) -> Result<(), ControlEnd>
    ensures leaves { Leaves camera heartbeat stops.now
        (record { heard = L.received control.old; sent = L.sent control.old; told = C.told clock.old; client = client.old })
        (record { heard = L.received control.new; sent = L.sent control.new; told = C.told clock.new; client = client.new }) result }
    ensures fails { FailsAs result (L.faults control.old) (L.faults control.new) }
{
    match await_command(rt, client, control, clock, camera, heartbeat) {
        Ok(first) => match stop_camera(rt, client, control, clock, camera, stops) {
            Ok(later) => end_by(earlier(first, later)),
            Err(cause) => Err(cause),
        },
        Err(cause) => Err(cause),
    }
}
