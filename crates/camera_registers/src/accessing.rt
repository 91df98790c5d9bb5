//! Accesses one after the other, with control of the camera where any of them writes.

ghost use Rattle.std.specs.Prelude.{◌≡◌, ◌≢◌, true, false, Some, Err, OnOk, OnErr, IfErr};
ghost use Rattle.client_machine.specs.Machine.{Client as Machine, IsIdle, new_client};
ghost use Rattle.gev_links.specs.Faults.{Rose};
ghost use Rattle.gev_links.specs.Told.{Appends, WritesPart};
ghost use Rattle.gev_control.specs.Sends.{Fails};
ghost use Rattle.camera_description.specs.Describing.{SEND_LIMIT as LIMIT};
ghost use Rattle.camera_registers.specs.Lines.{line_of as text_of};
ghost use Rattle.camera_registers.specs.Registers.{is_write, writes_any, fault_by, is_fault, behind, MakesOne, MakesEach, GivesAway, Accesses};

use crate::lines::line_of;
use crate::making::make_access;
use crate::register_fault::RegisterFault;
use bootstrap_regs::addresses::CCP;
use camera_control::{ControlEnd, gain_control};
use camera_words::Access;
use control_client::Client;
use gev_links::{Clock, Link, Sink, write_all};
use gev_types::Peer;
use std::sync::Wait;

/// How many milliseconds after a send the next one comes.
const SEND_LIMIT: u64 = 500;

/// Writes the line of a register and its value.
fn write_line<K: Sink>(sink: &mut K, register: u32, value: u32) -> Result<(), RegisterFault>
    ensures written { OnOk result (Appends (K.written sink.old) (K.written sink.new) (text_of (Access.Read register) (Some value))) }
    ensures unfinished { OnErr result (WritesPart (K.written sink.old) (K.written sink.new) (text_of (Access.Read register) (Some value))) }
    ensures fault { IfErr result (λ fault. fault ≡ RegisterFault.WriteFault) }
    ensures steady { OnOk result (K.faults sink.new ≡ K.faults sink.old) }
    ensures failed { OnErr result (Rose (K.faults sink.old) (K.faults sink.new)) }
{
    match write_all(sink, line_of(register, value).as_slice()) {
        Ok(()) => Ok(()),
        Err(_) => Err(RegisterFault::WriteFault),
    }
}

/// Writes what an access that was acknowledged told: the line of a read, and nothing of a write.
fn write_told<K: Sink>(sink: &mut K, access: Access, told: Option<u32>) -> Result<(), RegisterFault>
    ensures written { OnOk result (Appends (K.written sink.old) (K.written sink.new) (text_of access told)) }
    ensures unfinished { OnErr result (WritesPart (K.written sink.old) (K.written sink.new) (text_of access told)) }
    ensures fault { IfErr result (λ fault. fault ≡ RegisterFault.WriteFault) }
    ensures steady { OnOk result (K.faults sink.new ≡ K.faults sink.old) }
    ensures failed { OnErr result (Rose (K.faults sink.old) (K.faults sink.new)) }
{
    match access {
        Access::Read { register } => match told {
            Some(value) => write_line(sink, register, value),
            None => Ok(()),
        },
        Access::Write { .. } => Ok(()),
    }
}

/// Makes an access, and writes its line.
fn access_one<R: Wait, L: Link, C: Clock, K: Sink>(
    rt: &R,
    client: &mut Client,
    link: &mut L,
    clock: &mut C,
    sink: &mut K,
    camera: Peer,
    access: Access,
) -> Result<(), RegisterFault>
    requires { IsIdle client.old }
    ensures makes { MakesOne camera access
        (record { heard = L.received link.old; sent = L.sent link.old; told = C.told clock.old; client = client.old })
        (record { heard = L.received link.new; sent = L.sent link.new; told = C.told clock.new; client = client.new })
        result (K.written sink.old) (K.written sink.new) }
    ensures idle { is_fault result ≡ false → IsIdle client.new }
    ensures fails { Fails false (is_fault result) (L.faults link.old) (L.faults link.new) }
    ensures steady { result ≢ Err RegisterFault.WriteFault → K.faults sink.new ≡ K.faults sink.old }
    ensures failed { result ≡ Err RegisterFault.WriteFault → Rose (K.faults sink.old) (K.faults sink.new) }
{
    match make_access(rt, client, link, clock, camera, access) {
        Ok(()) => write_told(sink, access, client.value()),
        Err(fault) => Err(fault),
    }
}

/// Makes accesses in order, each once the line of the one before it was written, up to the first that ends all.
fn access_each<R: Wait, L: Link, C: Clock, K: Sink>(
    rt: &R,
    client: &mut Client,
    link: &mut L,
    clock: &mut C,
    sink: &mut K,
    camera: Peer,
    accesses: &[Access],
) -> Result<(), RegisterFault>
    requires { IsIdle client.old }
    ensures makes { MakesEach camera accesses.now
        (record { heard = L.received link.old; sent = L.sent link.old; told = C.told clock.old; client = client.old })
        (record { heard = L.received link.new; sent = L.sent link.new; told = C.told clock.new; client = client.new })
        result (K.written sink.old) (K.written sink.new) }
    ensures idle { is_fault result ≡ false → IsIdle client.new }
    ensures fails { Fails false (is_fault result) (L.faults link.old) (L.faults link.new) }
    ensures steady { result ≢ Err RegisterFault.WriteFault → K.faults sink.new ≡ K.faults sink.old }
    ensures failed { result ≡ Err RegisterFault.WriteFault → Rose (K.faults sink.old) (K.faults sink.new) }
{
    for place in 0..accesses.len() {
        let access = accesses[place];
        match access_one(rt, client, link, clock, sink, camera, access) {
            Ok(()) => {}
            Err(fault) => return Err(fault),
        }
    }
    Ok(())
}

fn is_write(access: Access) -> bool
    ensures { result ≡ is_write access }
{
    match access {
        Access::Read { .. } => false,
        Access::Write { .. } => true,
    }
}

/// Whether any access is a write.
fn writes_any(accesses: &[Access]) -> bool
    ensures { result ≡ writes_any accesses.now }
{
    accesses.iter().any(|access| is_write(*access))
}

/// Why control wasn't gained.
fn fault_by(cause: ControlEnd) -> RegisterFault
    ensures { result ≡ fault_by cause }
{
    match cause {
        ControlEnd::LinkFault => RegisterFault::LinkFault,
        ControlEnd::NoAnswer(req) => RegisterFault::NoAnswer(req),
        ControlEnd::RefusedAt { register, status } => RegisterFault::RefusedAt { register, status },
        ControlEnd::Controlled => RegisterFault::Controlled,
        // A heartbeat alone tells it, and none is sent.
        ControlEnd::ControlLost => RegisterFault::Controlled,
    }
}

/// Whether a call of the link failed.
fn is_fault(outcome: Result<(), RegisterFault>) -> bool
    ensures { result ≡ is_fault outcome }
{
    match outcome {
        Ok(()) => false,
        Err(RegisterFault::LinkFault) => true,
        Err(RegisterFault::WriteFault) => false,
        Err(RegisterFault::NoAnswer(_)) => false,
        Err(RegisterFault::RefusedAt { .. }) => false,
        Err(RegisterFault::Controlled) => false,
    }
}

/// How all ended, by how the accesses did and how control was given away.
fn behind(
    made: Result<(), RegisterFault>,
    gave: Result<(), RegisterFault>,
) -> Result<(), RegisterFault>
    ensures { result ≡ behind made gave }
{
    match made {
        Ok(()) => gave,
        Err(fault) => { if is_fault(gave) { gave } else { Err(fault) } }
    }
}

/// Gives control away behind accesses that went so, but where a call of the link failed.
fn give_away<R: Wait, L: Link, C: Clock>(
    rt: &R,
    client: &mut Client,
    link: &mut L,
    clock: &mut C,
    camera: Peer,
    made: Result<(), RegisterFault>,
) -> Result<(), RegisterFault>
    requires { is_fault made ≡ false → IsIdle client.old }
    ensures gives { GivesAway camera made
        (record { heard = L.received link.old; sent = L.sent link.old; told = C.told clock.old; client = client.old })
        (record { heard = L.received link.new; sent = L.sent link.new; told = C.told clock.new; client = client.new }) result }
    ensures fails { Fails (is_fault made) (is_fault result) (L.faults link.old) (L.faults link.new) }
{
    if is_fault(made) {
        return made;
    }
    let gave = make_access(
        rt,
        client,
        link,
        clock,
        camera,
        Access::Write {
            register: CCP,
            value: 0,
        },
    );
    behind(made, gave)
}

/// Makes accesses of which one writes: with control of the camera, which is gained before them and given away behind
/// them.
fn access_held<R: Wait, L: Link, C: Clock, K: Sink>(
    rt: &R,
    client: &mut Client,
    link: &mut L,
    clock: &mut C,
    sink: &mut K,
    camera: Peer,
    accesses: &[Access],
) -> Result<(), RegisterFault>
    requires idle { IsIdle client.old }
    requires any { writes_any accesses.now ≡ true }
    ensures accesses { Accesses camera accesses.now
        (record { heard = L.received link.old; sent = L.sent link.old; told = C.told clock.old; client = client.old })
        (record { heard = L.received link.new; sent = L.sent link.new; told = C.told clock.new; client = client.new })
        result (K.written sink.old) (K.written sink.new) }
    ensures fails { Fails false (is_fault result) (L.faults link.old) (L.faults link.new) }
    ensures steady { result ≢ Err RegisterFault.WriteFault → result ≢ Err RegisterFault.LinkFault → K.faults sink.new ≡ K.faults sink.old }
    ensures failed { result ≡ Err RegisterFault.WriteFault → Rose (K.faults sink.old) (K.faults sink.new) }
{
    match gain_control(rt, client, link, clock, camera) {
        Ok(()) => {
            let made = access_each(rt, client, link, clock, sink, camera, accesses);
            give_away(rt, client, link, clock, camera, made)
        }
        Err(cause) => Err(fault_by(cause)),
    }
}

/// Reads and writes registers of a camera over a link, in order, each once the line of the one before it was written: a
/// line for each that was read, and nothing of a write. Where none is a write no control is taken. Else it's taken first,
/// and given away at every end behind that but where a call of the link failed. No heartbeat is sent.
pub fn access_registers<R: Wait, L: Link, C: Clock, K: Sink>(
    rt: &R,
    link: &mut L,
    clock: &mut C,
    sink: &mut K,
    camera: Peer,
    accesses: &[Access],
) -> Result<(), RegisterFault>
    ensures accesses { (client : Machine) × Accesses camera accesses.now
        (record { heard = L.received link.old; sent = L.sent link.old; told = C.told clock.old; client = new_client LIMIT })
        (record { heard = L.received link.new; sent = L.sent link.new; told = C.told clock.new; client = client })
        result (K.written sink.old) (K.written sink.new) }
    ensures fails { Fails false (is_fault result) (L.faults link.old) (L.faults link.new) }
    ensures steady { result ≢ Err RegisterFault.WriteFault → result ≢ Err RegisterFault.LinkFault → K.faults sink.new ≡ K.faults sink.old }
    ensures failed { result ≡ Err RegisterFault.WriteFault → Rose (K.faults sink.old) (K.faults sink.new) }
{
    let mut client = Client::with_limit(SEND_LIMIT);
    if writes_any(accesses) {
        return access_held(rt, &mut client, link, clock, sink, camera, accesses);
    }
    access_each(rt, &mut client, link, clock, sink, camera, accesses)
}
