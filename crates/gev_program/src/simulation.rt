//! A simulated camera on the network, over ports.

ghost use Rattle.std.specs.Prelude.{◌≡◌, ◌≢◌, ◌+◌, ◌≤◌, ℕ};
ghost use Rattle.gev_links.specs.Faults.{Rose};
ghost use Rattle.gev_top.specs.Completeness.{NoneRose, EndsSimulation};
ghost use Rattle.gev_program.specs.Simulation.{simulate_status, SimulatesSo};

use camera_serving::{SimulateEnd, simulate};
use camera_words::SimulateWords;
use gev_far::{FarPorts, TimedLink};
use gev_links::{Sink, Source};
use gev_status::Status;
use std::alloc::Global;
use std::sync::Wait;

/// The answer by how a run of a simulated camera ended.
fn simulate_status(end: SimulateEnd) -> Status
    ensures { result ≡ simulate_status end }
{
    match end {
        SimulateEnd::Done => Status::Done,
        SimulateEnd::LinkFault => Status::LinkFault,
        SimulateEnd::WriteFault => Status::WriteFault,
        SimulateEnd::NoMemory => Status::NoMemory,
    }
}

/// Simulates a camera at an address of this machine.
pub(crate) fn run_simulate<R: Wait, S: Source, P: FarPorts, K: Sink>(
    rt: &R,
    alloc: Global,
    asked: SimulateWords,
    source: &mut S,
    ports: &mut P,
    sink: &mut K,
) -> Status
where
    P::L: TimedLink,
    ensures simulates { SimulatesSo P.L.received P.L.sent P.L.faults P.C.told P.stands_at asked result (P.bound ports.old) (P.bound ports.new)
        (P.links ports.old) (P.links ports.new) (P.clocks ports.old) (P.clocks ports.new) (S.left source.old) (S.left source.new)
        (S.faults source.old) (S.faults source.new) (K.written sink.old) (K.written sink.new) }
    ensures binds { P.binds ports.new ≤ P.binds ports.old + 3 }
    ensures link_fault { result ≡ Status.LinkFault → Rose (P.faults ports.old) (P.faults ports.new) }
    ensures links_steady { result ≢ Status.LinkFault → P.faults ports.new ≡ P.faults ports.old }
    ensures writes_steady { result ≢ Status.WriteFault → K.faults sink.new ≡ K.faults sink.old }
    ensures understood { (place : ℕ) → result ≢ Status.Usage place }
    ensures complete { NoneRose (K.faults sink.old) (K.faults sink.new) → NoneRose (P.faults ports.old) (P.faults ports.new) → EndsSimulation result }
{
    simulate_status(simulate(rt, alloc, asked, source, ports, sink))
}
