//! Accesses over ports.

ghost use Rattle.std.specs.Prelude.{◌≡◌, ◌≢◌, false, option_map, Err};
ghost use Rattle.client_machine.specs.Machine.{Client as Machine, new_client};
ghost use Rattle.gev_links.specs.Faults.{Rose};
ghost use Rattle.gev_links.specs.Given.{one_more};
ghost use Rattle.gev_links.specs.Links.{IsBlank};
ghost use Rattle.gev_control.specs.Sends.{Fails};
ghost use Rattle.camera_description.specs.Describing.{SEND_LIMIT as LIMIT};
ghost use Rattle.camera_registers.specs.Registers.{heard_of, is_fault, Accesses, Registers};

use crate::accessing::access_registers;
use crate::register_fault::RegisterFault;
use camera_words::Access;
use gev_far::FarPorts;
use gev_links::{Clock, Link, Sink};
use gev_types::Peer;
use link_filters::{Heard, OnlyFrom, RegisterReads};
use std::marker::Brand;
use std::sync::Wait;

/// The port of a camera's control channel (GigE Vision 2.0, GVCP).
const CONTROL_PORT: u16 = 3956;

// The same by what comes from the camera's address alone, of which each READREG_ACK has one register.
fn access_from<R: Wait, L: Link, C: Clock, K: Sink, H: Heard>(
    rt: &R,
    link: L,
    clock: &mut C,
    sink: &mut K,
    camera: Peer,
    accesses: &[Access],
) -> (L, Result<(), RegisterFault>)
    requires source { camera.address ≡ H.source }
    requires blank { IsBlank (L.received link) }
    ensures accesses { (client : Machine) × Accesses camera accesses.now
        (record { heard = heard_of H.source (L.received link); sent = L.sent link; told = C.told clock.old; client = new_client LIMIT })
        (record { heard = heard_of H.source (L.received result.0); sent = L.sent result.0; told = C.told clock.new; client = client })
        result.1 (K.written sink.old) (K.written sink.new) }
    ensures fails { Fails false (is_fault result.1) (L.faults link) (L.faults result.0) }
    ensures steady { result.1 ≢ Err RegisterFault.WriteFault → result.1 ≢ Err RegisterFault.LinkFault → K.faults sink.new ≡ K.faults sink.old }
    ensures failed { result.1 ≡ Err RegisterFault.WriteFault → Rose (K.faults sink.old) (K.faults sink.new) }
{
    let filter: OnlyFrom<L, H> = OnlyFrom::new(link, camera.address);
    let mut reads = RegisterReads::new(filter);
    let end = access_registers(rt, &mut reads, clock, sink, camera, accesses);
    (reads.into_inner().into_inner(), end)
}

/// Reads and writes registers of the camera at an IPv4 address, in order, over a link that the ports bind towards it and
/// get back, and writes a line for each that was read, as it comes. What other addresses send is passed over.
pub fn register<R: Wait, P: FarPorts, K: Sink>(
    rt: &R,
    ports: &mut P,
    sink: &mut K,
    address: u32,
    accesses: &[Access],
) -> Result<(), RegisterFault>
    ensures registers { Registers P.L.received P.L.sent P.C.told address accesses.now result (P.links ports.old) (P.links ports.new)
        (P.clocks ports.old) (P.clocks ports.new) (K.written sink.old) (K.written sink.new) }
    ensures binds { P.binds ports.new ≡ one_more (P.binds ports.old) }
    ensures fails { Fails false (is_fault result) (P.faults ports.old) (P.faults ports.new) }
    ensures steady { result ≢ Err RegisterFault.WriteFault → result ≢ Err RegisterFault.LinkFault → K.faults sink.new ≡ K.faults sink.old }
    ensures failed { result ≡ Err RegisterFault.WriteFault → Rose (K.faults sink.old) (K.faults sink.new) }
{
    let camera = Peer {
        address,
        port: CONTROL_PORT,
    };
    let Ok((link, _)) = ports.bind_towards(camera) else {
        return Err(RegisterFault::LinkFault);
    };
    let mut clock = ports.clock();
    let (back, end) = access_from::<R, P::L, P::C, K, Brand>(
        rt, link, &mut clock, sink, camera, accesses,
    );
    ports.unbind(back);
    ports.unclock(clock);
    end
}
