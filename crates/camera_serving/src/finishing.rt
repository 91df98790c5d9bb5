//! The line at the end.

ghost use Rattle.std.specs.Prelude.{◌≡◌, ◌≢◌, IfOk};
ghost use Rattle.std.specs.String.{string_bytes};
ghost use Rattle.gev_links.specs.Faults.{Rose};
ghost use Rattle.camera_serving.specs.Turning.{simulate_line, WroteEnd};

use crate::ends::{SimulateEnd, TurnsEnd};
use gev_links::{Sink, write_all};
use gev_types::NoMemory;
use std::alloc::Global;

/// The line of so many frames and turns.
fn line_of(alloc: Global, frames: u64, turns: u64) -> Result<String, NoMemory>
    ensures { IfOk result (λ line. string_bytes line ≡ simulate_line frames turns) }
{
    Ok(format!(in alloc; "simulate frames={frames} turns={turns}\n")?)
}

/// Writes the line, where the turns are over, and answers how the run ended.
pub(crate) fn finish<K: Sink>(alloc: Global, sink: &mut K, end: TurnsEnd) -> SimulateEnd
    ensures wrote { WroteEnd end result (K.written sink.old) (K.written sink.new) }
    ensures sink_steady { result ≢ SimulateEnd.WriteFault → K.faults sink.new ≡ K.faults sink.old }
    ensures sink_failed { result ≡ SimulateEnd.WriteFault → Rose (K.faults sink.old) (K.faults sink.new) }
{
    match end {
        TurnsEnd::Over { turns, frames } => write_line(alloc, sink, frames, turns),
        TurnsEnd::Fault => SimulateEnd::LinkFault,
        TurnsEnd::NoMemory => SimulateEnd::NoMemory,
    }
}

/// Writes the line of so many frames and turns.
fn write_line<K: Sink>(alloc: Global, sink: &mut K, frames: u64, turns: u64) -> SimulateEnd
    ensures wrote { WroteEnd (TurnsEnd.Over turns frames) result (K.written sink.old) (K.written sink.new) }
    ensures sink_steady { result ≢ SimulateEnd.WriteFault → K.faults sink.new ≡ K.faults sink.old }
    ensures sink_failed { result ≡ SimulateEnd.WriteFault → Rose (K.faults sink.old) (K.faults sink.new) }
{
    match line_of(alloc, frames, turns) {
        Ok(line) => match write_all(sink, line.as_bytes()) {
            Ok(()) => SimulateEnd::Done,
            Err(_) => SimulateEnd::WriteFault,
        },
        Err(_) => SimulateEnd::NoMemory,
    }
}
