//! A search over ports.

ghost use Rattle.std.specs.Prelude.{◌≡◌, ◌≢◌};
ghost use Rattle.gev_links.specs.Faults.{Rose};
ghost use Rattle.gev_links.specs.Given.{one_more};
ghost use Rattle.camera_search.specs.Searched.{Discovers};

use crate::search_end::SearchEnd;
use crate::searching::search;
use gev_far::FarPorts;
use gev_links::Sink;
use gev_types::Peer;
use std::alloc::Global;
use std::sync::Wait;

/// The port of a camera's control channel (GigE Vision 2.0, GVCP).
const CONTROL_PORT: u16 = 3956;

/// Looks for cameras at an IPv4 address, which may be a network's broadcast address, over a link that the ports
/// bind for broadcasts and get back: as `search`.
pub fn discover<R: Wait, P: FarPorts, K: Sink>(
    rt: &R,
    alloc: Global,
    ports: &mut P,
    sink: &mut K,
    address: u32,
) -> SearchEnd
    ensures discovers { Discovers P.L.received P.L.sent P.C.told address result (P.links ports.old) (P.links ports.new)
        (P.clocks ports.old) (P.clocks ports.new) (K.written sink.old) (K.written sink.new) }
    ensures binds { P.binds ports.new ≡ one_more (P.binds ports.old) }
    ensures link_steady { result ≢ SearchEnd.LinkFault → P.faults ports.new ≡ P.faults ports.old }
    ensures link_failed { result ≡ SearchEnd.LinkFault → Rose (P.faults ports.old) (P.faults ports.new) }
    ensures sink_steady { result ≢ SearchEnd.WriteFault → K.faults sink.new ≡ K.faults sink.old }
    ensures sink_failed { result ≡ SearchEnd.WriteFault → Rose (K.faults sink.old) (K.faults sink.new) }
{
    let Ok((mut link, _)) = ports.bind_broadcasting() else {
        return SearchEnd::LinkFault;
    };
    let mut clock = ports.clock();
    let to = Peer {
        address,
        port: CONTROL_PORT,
    };
    let end = search(rt, alloc, &mut link, &mut clock, sink, to);
    ports.unbind(link);
    ports.unclock(clock);
    end
}
