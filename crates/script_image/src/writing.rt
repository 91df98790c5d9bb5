//! The pictures of a script's buffers, from the source to the sink.

ghost use Rattle.std.specs.Prelude.{◌≡◌, ◌≢◌};
ghost use Rattle.gev_links.specs.Faults.{Rose};
ghost use Rattle.script_runs.specs.Verdicts.{IfTold, outcome};
ghost use Rattle.script_trace.specs.Standing.{replay_verdict};
ghost use Rattle.script_image.specs.Ends.{ImageEnds, AnswersContent, IsComplete, IsInRange};

use crate::image_end::ImageEnd;
use crate::running::run_to_end;
use crate::showing::Showing;
use crate::wanted::Wanted;
use gev_links::{Sink, Source};
use gev_types::NoMemory;
use std::alloc::Global;

/// Runs the script that the source gives, and writes the pictures that are wanted.
#[tactic(auto, using(crate::proofs::Looping::image_none))]
fn write_wanted<S: Source, K: Sink>(
    alloc: Global,
    source: &mut S,
    sink: &mut K,
    wanted: Wanted,
) -> ImageEnd
    requires some { IsInRange wanted }
    ensures ends { ImageEnds wanted result (S.left source.old) (S.left source.new) (S.faults source.old) (S.faults source.new)
        (K.written sink.old) (K.written sink.new) (K.faults sink.old) (K.faults sink.new) }
    ensures reads_steady { result ≢ ImageEnd.ReadFault → S.faults source.new ≡ S.faults source.old }
    ensures writes_steady { result ≢ ImageEnd.WriteFault → K.faults sink.new ≡ K.faults sink.old }
{
    match Showing::new(alloc, wanted) {
        Ok(mut showing) => run_to_end(alloc, source, sink, &mut showing),
        Err(NoMemory) => ImageEnd::NoMemory,
    }
}

/// Writes the pictures that are wanted of the buffers that the `take` lines of the script get which the source gives.
///
/// The script is run as a replay, and nothing of its report is written: with `One`, up to the line that gets the buffer
/// with this number, from 1 to 4,294,967,295, and what follows isn't looked at; with `All`, to its end, and a buffer
/// without a picture is passed over. The rows are written straight from the buffer, so memory is that of the replay, and
/// 64 KiB besides.
pub fn write_image<S: Source, K: Sink>(
    alloc: Global,
    source: &mut S,
    sink: &mut K,
    wanted: Wanted,
) -> ImageEnd
    requires some { IsInRange wanted }

    // Each ending has its cause: which lines were run, what was read, and whose count of faults rose. What is written are
    // the pictures of the buffers that were taken, by their records and bytes alone, or a front of them.
    ensures ends { ImageEnds wanted result (S.left source.old) (S.left source.new) (S.faults source.old) (S.faults source.new)
        (K.written sink.old) (K.written sink.new) (K.faults sink.old) (K.faults sink.new) }

    // Where the source tells what it holds, its bytes decide which line is refused, and whether the script ended.
    ensures exact { IfTold (S.left source.old) (λ content. AnswersContent wanted result (outcome replay_verdict content)) }

    // Where no count of faults rose, it's a picture, or there is none, or a line is refused, or memory was wanting.
    ensures complete { (Rose (S.faults source.old) (S.faults source.new) → ⊥) → (Rose (K.faults sink.old) (K.faults sink.new) → ⊥) → IsComplete result }
    ensures reads_steady { result ≢ ImageEnd.ReadFault → S.faults source.new ≡ S.faults source.old }
    ensures writes_steady { result ≢ ImageEnd.WriteFault → K.faults sink.new ≡ K.faults sink.old }
{
    write_wanted(alloc, source, sink, wanted)
}
