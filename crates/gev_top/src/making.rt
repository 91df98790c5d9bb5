ghost use Rattle.std.specs.Prelude.{◌≡◌, ◌≢◌};
ghost use Rattle.gev_make.specs.MakeText.{make_text};
ghost use Rattle.gev_top.specs.Answers.{Writes};

use gev_links::Sink;
use gev_make::{MakeEnd, make};
use gev_status::Status;
use lossy_queue::Rates;
use std::alloc::Global;

/// Writes the replay script of a seed.
pub(crate) fn make_script<K: Sink>(
    alloc: Global,
    seed: u64,
    frames: u32,
    rates: Rates,
    sink: &mut K,
) -> Status
    ensures cause { Writes (make_text seed frames rates) result
        (K.written sink.old) (K.written sink.new) (K.faults sink.old) (K.faults sink.new) }
    ensures writes_steady { result ≢ Status.WriteFault → K.faults sink.new ≡ K.faults sink.old }
{
    match make(alloc, seed, frames, rates, sink) {
        MakeEnd::Done => Status::Done,
        MakeEnd::WriteFault => Status::WriteFault,
        MakeEnd::NoMemory => Status::NoMemory,
    }
}
