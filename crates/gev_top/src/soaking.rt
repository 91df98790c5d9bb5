ghost use Rattle.std.specs.Prelude.{◌≡◌, ◌≢◌};
ghost use Rattle.gev_world.specs.Runs.{RunsSoak};
ghost use Rattle.gev_top.specs.Soaking.{status_after, WritesRun};

use gev_links::Sink;
use gev_status::Status;
use gev_types::NoMemory;
use gev_world::{SoakEnd, World};
use lossy_queue::Rates;
use std::alloc::Global;

/// Makes the world of a run, and runs it.
fn run_world<K: Sink>(
    alloc: Global,
    seed: u64,
    frames: u32,
    rates: Rates,
    short: bool,
    sink: &mut K,
) -> SoakEnd
    ensures { RunsSoak result (record { seed = seed; frames = frames; rates = rates; short = short })
        (K.written sink.old) (K.written sink.new) (K.faults sink.old) (K.faults sink.new) }
{
    let Rates { loss, repeat, swap } = rates;
    match World::new(alloc, seed, frames, loss, repeat, swap, short) {
        Ok(mut world) => world.run(alloc, sink),
        Err(NoMemory) => SoakEnd::NoMemory,
    }
}

/// The answer of a run by how it ended.
fn status_of(end: SoakEnd) -> Status
    ensures { result ≡ status_after end }
{
    match end {
        SoakEnd::Done => Status::Done,
        SoakEnd::WriteFault => Status::WriteFault,
        SoakEnd::NoMemory => Status::NoMemory,
        SoakEnd::NoAnswer(req) => Status::NoAnswer { req },
        SoakEnd::Refused(status) => Status::Refused { status },
    }
}

/// Runs camera, network and host of a seed, and writes what the host takes.
pub(crate) fn soak<K: Sink>(
    alloc: Global,
    seed: u64,
    frames: u32,
    rates: Rates,
    short: bool,
    sink: &mut K,
) -> Status
    ensures cause { WritesRun (record { seed = seed; frames = frames; rates = rates; short = short }) result
        (K.written sink.old) (K.written sink.new) (K.faults sink.old) (K.faults sink.new) }
    ensures writes_steady { result ≢ Status.WriteFault → K.faults sink.new ≡ K.faults sink.old }
{
    status_of(run_world(alloc, seed, frames, rates, short, sink))
}
