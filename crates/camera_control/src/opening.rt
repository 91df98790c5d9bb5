//! What is done with control of a camera: its stream is opened, and it's started.

ghost use Rattle.std.specs.Prelude.{◌≡◌, [], ◌∷◌, ◌++◌, map, IfOk};
ghost use Rattle.bootstrap_regs.specs.Addresses.{SCP0 as SCP0_AT, SCPS0 as SCPS0_AT, SCDA0 as SCDA0_AT};
ghost use Rattle.client_machine.specs.Machine.{IsIdle};
ghost use Rattle.camera_control.specs.declared.step.Step.TheVariants as step;
ghost use Rattle.camera_control.specs.Steps.{write_step, agree_steps, open_steps, allows_resends, size_held};
ghost use Rattle.camera_control.specs.Taking.{Runs, RunsAndReads, Opens, FailsAs};

use crate::control_end::ControlEnd;
use crate::making::{make_step, value_read};
use crate::register_write::RegisterWrite;
use crate::step::Step;
use crate::stream_wish::StreamWish;
use crate::taken::Taken;
use bootstrap_regs::addresses::{SCDA0, SCP0, SCPS0};
use control_client::Client;
use gev_links::{Clock, Link};
use gev_types::Peer;
use std::sync::Wait;

// The register that tells what a camera can do on its control channel, and its bit for resends.
const CAPABILITY: u32 = 0x0934;

// Whether packets may be asked for again: the third bit is set.
fn allows_resends(capability: Option<u32>) -> bool
    ensures { result ≡ allows_resends capability }
{
    match capability {
        Some(bits) => 4 <= bits % 8,
        None => false,
    }
}

// The size of the stream's packets: what the camera holds where it's one that may be.
fn size_held(wanted: u16, told: Option<u32>) -> u16
    ensures { result ≡ size_held wanted told }
{
    match told {
        Some(register) => {
            let size = (register % 65_536) as u16;
            if 576 <= size && size <= 9000 {
                size
            } else {
                wanted
            }
        }
        None => wanted,
    }
}

// Writes a register.
pub(crate) fn write_one<R: Wait, L: Link, C: Clock>(
    rt: &R,
    client: &mut Client,
    control: &mut L,
    clock: &mut C,
    camera: Peer,
    register: u32,
    value: u32,
) -> Result<(), ControlEnd>
    requires { IsIdle client.old }
    ensures runs { Runs camera (step.Write register value ∷ [])
        (record { heard = L.received control.old; sent = L.sent control.old; told = C.told clock.old; client = client.old })
        (record { heard = L.received control.new; sent = L.sent control.new; told = C.told clock.new; client = client.new }) result }
    ensures idle { IfOk result (λ _. IsIdle client.new) }
    ensures fails { FailsAs result (L.faults control.old) (L.faults control.new) }
{
    match make_step(
        rt,
        client,
        control,
        clock,
        camera,
        Step::Write { register, value },
    ) {
        Ok(_) => Ok(()),
        Err(cause) => Err(cause),
    }
}

// Reads a register: its value, if it was told.
fn read_one<R: Wait, L: Link, C: Clock>(
    rt: &R,
    client: &mut Client,
    control: &mut L,
    clock: &mut C,
    camera: Peer,
    register: u32,
) -> Result<Option<u32>, ControlEnd>
    requires { IsIdle client.old }
    ensures runs { RunsAndReads camera (step.Read register ∷ [])
        (record { heard = L.received control.old; sent = L.sent control.old; told = C.told clock.old; client = client.old })
        (record { heard = L.received control.new; sent = L.sent control.new; told = C.told clock.new; client = client.new }) result }
    ensures idle { IfOk result (λ _. IsIdle client.new) }
    ensures fails { FailsAs result (L.faults control.old) (L.faults control.new) }
{
    match make_step(rt, client, control, clock, camera, Step::Read { register }) {
        Ok(end) => Ok(value_read(end, client.value())),
        Err(cause) => Err(cause),
    }
}

// Writes registers, in order.
fn write_each<R: Wait, L: Link, C: Clock>(
    rt: &R,
    client: &mut Client,
    control: &mut L,
    clock: &mut C,
    camera: Peer,
    writes: &[RegisterWrite],
) -> Result<(), ControlEnd>
    requires { IsIdle client.old }
    ensures runs { Runs camera (map write_step writes.now)
        (record { heard = L.received control.old; sent = L.sent control.old; told = C.told clock.old; client = client.old })
        (record { heard = L.received control.new; sent = L.sent control.new; told = C.told clock.new; client = client.new }) result }
    ensures idle { IfOk result (λ _. IsIdle client.new) }
    ensures fails { FailsAs result (L.faults control.old) (L.faults control.new) }
{
    for place in 0..writes.len() {
        let write = writes[place];
        match write_one(
            rt,
            client,
            control,
            clock,
            camera,
            write.register,
            write.value,
        ) {
            Ok(()) => {}
            Err(cause) => return Err(cause),
        }
    }
    Ok(())
}

// Writes the packet size and reads which one the camera holds.
fn agree_on_size<R: Wait, L: Link, C: Clock>(
    rt: &R,
    client: &mut Client,
    control: &mut L,
    clock: &mut C,
    camera: Peer,
    size: u16,
) -> Result<Option<u32>, ControlEnd>
    requires { IsIdle client.old }
    ensures runs { RunsAndReads camera (step.Write SCPS0_AT size ∷ step.Read SCPS0_AT ∷ [])
        (record { heard = L.received control.old; sent = L.sent control.old; told = C.told clock.old; client = client.old })
        (record { heard = L.received control.new; sent = L.sent control.new; told = C.told clock.new; client = client.new }) result }
    ensures idle { IfOk result (λ _. IsIdle client.new) }
    ensures fails { FailsAs result (L.faults control.old) (L.faults control.new) }
{
    match write_one(rt, client, control, clock, camera, SCPS0, u32::from(size)) {
        Ok(()) => read_one(rt, client, control, clock, camera, SCPS0),
        Err(cause) => Err(cause),
    }
}

// Opens the stream and starts the camera, once the packet size was agreed on: writes the address to which the stream
// goes, the port, which opens the channel, and what is to be written behind them.
fn start<R: Wait, L: Link, C: Clock>(
    rt: &R,
    client: &mut Client,
    control: &mut L,
    clock: &mut C,
    camera: Peer,
    receiver: Peer,
    starts: &[RegisterWrite],
) -> Result<(), ControlEnd>
    requires { IsIdle client.old }
    ensures runs { Runs camera (step.Write SCDA0_AT receiver.address ∷ step.Write SCP0_AT receiver.port ∷ map write_step starts.now)
        (record { heard = L.received control.old; sent = L.sent control.old; told = C.told clock.old; client = client.old })
        (record { heard = L.received control.new; sent = L.sent control.new; told = C.told clock.new; client = client.new }) result }
    ensures idle { IfOk result (λ _. IsIdle client.new) }
    ensures fails { FailsAs result (L.faults control.old) (L.faults control.new) }
{
    let channel = [
        RegisterWrite {
            register: SCDA0,
            value: receiver.address,
        },
        RegisterWrite {
            register: SCP0,
            value: u32::from(receiver.port),
        },
    ];
    match write_each(rt, client, control, clock, camera, &channel) {
        Ok(()) => write_each(rt, client, control, clock, camera, starts),
        Err(cause) => Err(cause),
    }
}

// Agrees on the packet size, opens the stream and starts the camera: the packet size that was read.
fn agree_and_start<R: Wait, L: Link, C: Clock>(
    rt: &R,
    client: &mut Client,
    control: &mut L,
    clock: &mut C,
    camera: Peer,
    wish: StreamWish,
    starts: &[RegisterWrite],
) -> Result<Option<u32>, ControlEnd>
    requires { IsIdle client.old }
    ensures runs { RunsAndReads camera (agree_steps wish starts.now)
        (record { heard = L.received control.old; sent = L.sent control.old; told = C.told clock.old; client = client.old })
        (record { heard = L.received control.new; sent = L.sent control.new; told = C.told clock.new; client = client.new }) result }
    ensures idle { IfOk result (λ _. IsIdle client.new) }
    ensures fails { FailsAs result (L.faults control.old) (L.faults control.new) }
{
    match agree_on_size(rt, client, control, clock, camera, wish.packet_size) {
        Ok(told) => match start(rt, client, control, clock, camera, wish.receiver, starts) {
            Ok(()) => Ok(told),
            Err(cause) => Err(cause),
        },
        Err(cause) => Err(cause),
    }
}

// Makes the writes before the stream opens, and what comes behind them.
fn set_and_start<R: Wait, L: Link, C: Clock>(
    rt: &R,
    client: &mut Client,
    control: &mut L,
    clock: &mut C,
    camera: Peer,
    wish: StreamWish,
    sets: &[RegisterWrite],
    starts: &[RegisterWrite],
) -> Result<Option<u32>, ControlEnd>
    requires { IsIdle client.old }
    ensures runs { RunsAndReads camera (map write_step sets.now ++ agree_steps wish starts.now)
        (record { heard = L.received control.old; sent = L.sent control.old; told = C.told clock.old; client = client.old })
        (record { heard = L.received control.new; sent = L.sent control.new; told = C.told clock.new; client = client.new }) result }
    ensures idle { IfOk result (λ _. IsIdle client.new) }
    ensures fails { FailsAs result (L.faults control.old) (L.faults control.new) }
{
    match write_each(rt, client, control, clock, camera, sets) {
        Ok(()) => agree_and_start(rt, client, control, clock, camera, wish, starts),
        Err(cause) => Err(cause),
    }
}

// What is done with control: what is known of the stream then.
pub(crate) fn open_stream<R: Wait, L: Link, C: Clock>(
    rt: &R,
    client: &mut Client,
    control: &mut L,
    clock: &mut C,
    camera: Peer,
    wish: StreamWish,
    sets: &[RegisterWrite],
    starts: &[RegisterWrite],
) -> Result<Taken, ControlEnd>
    requires { IsIdle client.old }
    ensures opens { Opens camera (open_steps wish sets.now starts.now) wish
        (record { heard = L.received control.old; sent = L.sent control.old; told = C.told clock.old; client = client.old })
        (record { heard = L.received control.new; sent = L.sent control.new; told = C.told clock.new; client = client.new }) result }
    ensures idle { IfOk result (λ _. IsIdle client.new) }
    ensures fails { FailsAs result (L.faults control.old) (L.faults control.new) }
{
    match read_one(rt, client, control, clock, camera, CAPABILITY) {
        Ok(capability) => match set_and_start(
            rt, client, control, clock, camera, wish, sets, starts,
        ) {
            Ok(told) => Ok(Taken {
                resends: allows_resends(capability),
                packet_size: size_held(wish.packet_size, told),
            }),
            Err(cause) => Err(cause),
        },
        Err(cause) => Err(cause),
    }
}
