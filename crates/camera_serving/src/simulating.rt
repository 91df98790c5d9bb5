//! A simulated camera over ports.

ghost use Rattle.std.specs.Prelude.{◌≡◌, ◌≢◌, ◌+◌, ◌≤◌, false};
ghost use Rattle.gev_links.specs.Faults.{Rose};
ghost use Rattle.camera_serving.specs.Simulated.{simulated_shape, control_peer, Simulates};

use crate::ends::SimulateEnd;
use crate::finishing::finish;
use crate::turning::serve_turns;
use camera_sim::Camera;
use camera_words::SimulateWords;
use gev_far::{FarPorts, TimedLink};
use gev_links::{Sink, Source};
use gev_types::{Peer, Shape};
use std::alloc::Global;
use std::sync::Wait;

/// The port of a camera's control channel (GigE Vision 2.0, GVCP).
const CONTROL_PORT: u16 = 3956;

/// How many frames the camera keeps, whose packets it can send again.
const KEPT_FRAMES: u8 = 4;

/// Its images: 640 x 480 pixels of one byte each (Mono8).
fn shape() -> Shape
    ensures { result ≡ simulated_shape }
{
    Shape {
        pixel: 0x0108_0001,
        size_x: 640,
        size_y: 480,
    }
}

/// The control port of a camera at this address.
fn control_peer(address: u32) -> Peer
    ensures { result ≡ control_peer address }
{
    Peer {
        address,
        port: CONTROL_PORT,
    }
}

/// Simulates a camera at an address of this machine, which it tells as its own, over a link that the ports bind at its
/// control port and get back with the clock: as `serve_turns`. Behind the turns it writes a line.
pub fn simulate<R: Wait, S: Source, P: FarPorts, K: Sink>(
    rt: &R,
    alloc: Global,
    words: SimulateWords,
    source: &mut S,
    ports: &mut P,
    sink: &mut K,
) -> SimulateEnd
where
    P::L: TimedLink,
    ensures simulates { Simulates P.L.received P.L.sent P.L.faults P.C.told P.stands_at words result (P.bound ports.old) (P.bound ports.new)
        (P.links ports.old) (P.links ports.new) (P.clocks ports.old) (P.clocks ports.new) (S.left source.old) (S.left source.new) (K.written sink.old) (K.written sink.new) }
    ensures unread { words.with_input ≡ false → S.left source.new ≡ S.left source.old }
    ensures reads_steady { S.faults source.new ≡ S.faults source.old }
    ensures binds { P.binds ports.new ≤ P.binds ports.old + 1 }
    ensures link_steady { result ≢ SimulateEnd.LinkFault → P.faults ports.new ≡ P.faults ports.old }
    ensures link_failed { result ≡ SimulateEnd.LinkFault → Rose (P.faults ports.old) (P.faults ports.new) }
    ensures sink_steady { result ≢ SimulateEnd.WriteFault → K.faults sink.new ≡ K.faults sink.old }
    ensures sink_failed { result ≡ SimulateEnd.WriteFault → Rose (K.faults sink.old) (K.faults sink.new) }
{
    let Ok(mut camera) = Camera::new_at(alloc, words.address, words.seed, shape(), KEPT_FRAMES)
    else {
        return SimulateEnd::NoMemory;
    };
    let Ok((mut link, _)) = ports.bind_at(control_peer(words.address)) else {
        return SimulateEnd::LinkFault;
    };
    let mut clock = ports.clock();
    let end = serve_turns(
        rt,
        alloc,
        &words,
        source,
        &mut camera,
        &mut link,
        &mut clock,
    );
    ports.unbind(link);
    ports.unclock(clock);
    finish(alloc, sink, end)
}
