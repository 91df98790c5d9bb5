//! A description over a link, and over ports.

ghost use Rattle.std.specs.Prelude.{◌≡◌, ◌≢◌, false, option_map};
ghost use Rattle.client_machine.specs.Machine.{Client as Machine, new_client};
ghost use Rattle.gev_links.specs.Faults.{Rose};
ghost use Rattle.gev_links.specs.Given.{one_more};
ghost use Rattle.gev_links.specs.Links.{IsBlank};
ghost use Rattle.gev_control.specs.Sends.{Fails};
ghost use Rattle.link_filters.specs.Strangers.{all_from};
ghost use Rattle.camera_description.specs.Describing.{SEND_LIMIT as LIMIT, Describes, Fetches, is_fault};

use crate::copying::copy;
use crate::describe_end::DescribeEnd;
use crate::locating::locate;
use control_client::Client;
use gev_far::FarPorts;
use gev_links::{Clock, Link, Sink};
use gev_types::Peer;
use link_filters::{Heard, OnlyFrom};
use std::marker::Brand;
use std::sync::Wait;

/// The port of a camera's control channel (GigE Vision 2.0, GVCP).
const CONTROL_PORT: u16 = 3956;

/// How many milliseconds after a send the next one comes.
const SEND_LIMIT: u64 = 500;

/// Writes the description of the camera's registers that lies in the camera, by READMEM over a link, which is given
/// back. It takes no control. No memory is taken.
pub fn describe<R: Wait, L: Link, C: Clock, K: Sink>(
    rt: &R,
    link: L,
    clock: &mut C,
    sink: &mut K,
    camera: Peer,
) -> (L, DescribeEnd)
    ensures describes { (client : Machine) × Describes camera
        (record { heard = L.received link; sent = L.sent link; told = C.told clock.old; client = new_client LIMIT })
        (record { heard = L.received result.0; sent = L.sent result.0; told = C.told clock.new; client = client })
        result.1 (K.written sink.old) (K.written sink.new) }
    ensures fails { Fails false (is_fault result.1) (L.faults link) (L.faults result.0) }
    ensures steady { result.1 ≢ DescribeEnd.WriteFault → K.faults sink.new ≡ K.faults sink.old }
    ensures failed { result.1 ≡ DescribeEnd.WriteFault → Rose (K.faults sink.old) (K.faults sink.new) }
{
    let mut client = Client::with_limit(SEND_LIMIT);
    let (back, found) = locate(rt, &mut client, link, clock, camera);
    match found {
        Ok(location) => copy(rt, &mut client, back, clock, sink, camera, location),
        Err(end) => (back, end),
    }
}

// The same by what comes from the camera's address alone.
fn describe_from<R: Wait, L: Link, C: Clock, K: Sink, H: Heard>(
    rt: &R,
    link: L,
    clock: &mut C,
    sink: &mut K,
    camera: Peer,
) -> (L, DescribeEnd)
    requires source { camera.address ≡ H.source }
    requires blank { IsBlank (L.received link) }
    ensures describes { (client : Machine) × Describes camera
        (record { heard = option_map (all_from H.source) (L.received link); sent = L.sent link; told = C.told clock.old; client = new_client LIMIT })
        (record { heard = option_map (all_from H.source) (L.received result.0); sent = L.sent result.0; told = C.told clock.new; client = client })
        result.1 (K.written sink.old) (K.written sink.new) }
    ensures fails { Fails false (is_fault result.1) (L.faults link) (L.faults result.0) }
    ensures steady { result.1 ≢ DescribeEnd.WriteFault → K.faults sink.new ≡ K.faults sink.old }
    ensures failed { result.1 ≡ DescribeEnd.WriteFault → Rose (K.faults sink.old) (K.faults sink.new) }
{
    let filter: OnlyFrom<L, H> = OnlyFrom::new(link, camera.address);
    let (back, end) = describe(rt, filter, clock, sink, camera);
    (back.into_inner(), end)
}

/// Writes the description of the camera at an IPv4 address, over a link that the ports bind towards it and get back.
/// What other addresses send is passed over.
pub fn fetch<R: Wait, P: FarPorts, K: Sink>(
    rt: &R,
    ports: &mut P,
    sink: &mut K,
    address: u32,
) -> DescribeEnd
    ensures fetches { Fetches P.L.received P.L.sent P.C.told address result (P.links ports.old) (P.links ports.new)
        (P.clocks ports.old) (P.clocks ports.new) (K.written sink.old) (K.written sink.new) }
    ensures binds { P.binds ports.new ≡ one_more (P.binds ports.old) }
    ensures fails { Fails false (is_fault result) (P.faults ports.old) (P.faults ports.new) }
    ensures steady { result ≢ DescribeEnd.WriteFault → K.faults sink.new ≡ K.faults sink.old }
    ensures failed { result ≡ DescribeEnd.WriteFault → Rose (K.faults sink.old) (K.faults sink.new) }
{
    let camera = Peer {
        address,
        port: CONTROL_PORT,
    };
    let Ok((link, _)) = ports.bind_towards(camera) else {
        return DescribeEnd::LinkFault;
    };
    let mut clock = ports.clock();
    let (back, end) = describe_from::<R, P::L, P::C, K, Brand>(rt, link, &mut clock, sink, camera);
    ports.unbind(back);
    ports.unclock(clock);
    end
}
