//! A camera is taken.

ghost use Rattle.std.specs.Prelude.{◌≡◌, IfOk};
ghost use Rattle.client_machine.specs.Machine.{IsIdle};
ghost use Rattle.camera_control.specs.Steps.{gain_steps};
ghost use Rattle.camera_control.specs.Taking.{Runs, Takes, FailsAs, TakeFails};

use crate::control_end::ControlEnd;
use crate::making::make_step;
use crate::opening::{open_stream, write_one};
use crate::register_write::RegisterWrite;
use crate::step::Step;
use crate::stream_wish::StreamWish;
use crate::taken::{NotTaken, Taken};
use bootstrap_regs::addresses::CCP;
use client_machine::numbers::CONTROL_ACCESS;
use control_client::Client;
use gev_links::{Clock, Link};
use gev_types::Peer;
use std::sync::Wait;

/// Takes control of a camera where no other application has it: reads who has it, and asks for it once that was
/// acknowledged. The client has no command outstanding.
pub fn gain_control<R: Wait, L: Link, C: Clock>(
    rt: &R,
    client: &mut Client,
    control: &mut L,
    clock: &mut C,
    camera: Peer,
) -> Result<(), ControlEnd>
    requires { IsIdle client.old }
    ensures runs { Runs camera gain_steps
        (record { heard = L.received control.old; sent = L.sent control.old; told = C.told clock.old; client = client.old })
        (record { heard = L.received control.new; sent = L.sent control.new; told = C.told clock.new; client = client.new }) result }
    ensures idle { IfOk result (λ _. IsIdle client.new) }
    ensures fails { FailsAs result (L.faults control.old) (L.faults control.new) }
{
    match make_step(rt, client, control, clock, camera, Step::Ask) {
        Ok(_) => write_one(rt, client, control, clock, camera, CCP, CONTROL_ACCESS),
        Err(cause) => Err(cause),
    }
}

/// Takes a camera: takes control where no other application has it, makes the writes `sets` in order, opens the stream,
/// and makes the writes `starts` in order, each command once the one before it was acknowledged. What is known of the
/// stream then.
///
/// The camera's capability and its packet size may be refused: then packets aren't asked for again, and the packet size
/// is the one that was asked for. Every other refusal, a command that had no answer and a call of `control` that failed
/// end it, and so does another application that has control. Where the camera is held then, `let_go` lets it go.
pub fn take_camera<R: Wait, L: Link, C: Clock>(
    rt: &R,
    client: &mut Client,
    control: &mut L,
    clock: &mut C,
    camera: Peer,
    wish: StreamWish,
    sets: &[RegisterWrite],
    starts: &[RegisterWrite],
) -> Result<Taken, NotTaken>
    requires { IsIdle client.old }
    ensures takes { Takes camera wish sets.now starts.now
        (record { heard = L.received control.old; sent = L.sent control.old; told = C.told clock.old; client = client.old })
        (record { heard = L.received control.new; sent = L.sent control.new; told = C.told clock.new; client = client.new }) result }
    ensures idle { IfOk result (λ _. IsIdle client.new) }
    ensures fails { TakeFails result (L.faults control.old) (L.faults control.new) }
{
    match gain_control(rt, client, control, clock, camera) {
        Ok(()) => match open_stream(rt, client, control, clock, camera, wish, sets, starts) {
            Ok(taken) => Ok(taken),
            Err(end) => Err(NotTaken { end, held: true }),
        },
        Err(end) => Err(NotTaken { end, held: false }),
    }
}
