ghost use Rattle.std.specs.Prelude.{◌≡◌, ◌≢◌};
ghost use Rattle.script_runs.specs.Verdicts.{IfTold, outcome};
ghost use Rattle.script_trace.specs.Standing.{replay_verdict};
ghost use Rattle.script_image.specs.Ends.{IsInRange};
ghost use Rattle.gev_top.specs.Imaging.{status_for, Images, AnswersImage};

use gev_links::{Sink, Source};
use gev_status::Status;
use script_image::{ImageEnd, Wanted, write_image};
use std::alloc::Global;

/// The answer where the writing of pictures ended so.
fn status_for(end: ImageEnd) -> Status
    ensures { result ≡ status_for end }
{
    match end {
        ImageEnd::Done => Status::Done,
        ImageEnd::NoPicture(why) => Status::NoPicture { why },
        ImageEnd::BadLine { line, kind } => Status::BadScript { line, kind },
        ImageEnd::ReadFault => Status::ReadFault,
        ImageEnd::WriteFault => Status::WriteFault,
        ImageEnd::NoMemory => Status::NoMemory,
    }
}

/// Writes pictures of the buffers that the script's `take` lines get: of the one with this number, from 1, or of all.
pub(crate) fn image<S: Source, K: Sink>(
    alloc: Global,
    wanted: Wanted,
    source: &mut S,
    sink: &mut K,
) -> Status
    requires { IsInRange wanted }
    ensures cause { Images wanted result (S.left source.old) (S.left source.new) (S.faults source.old) (S.faults source.new)
        (K.written sink.old) (K.written sink.new) (K.faults sink.old) (K.faults sink.new) }
    ensures exact { IfTold (S.left source.old) (λ content. AnswersImage wanted result (outcome replay_verdict content)) }
    ensures reads_steady { result ≢ Status.ReadFault → S.faults source.new ≡ S.faults source.old }
    ensures writes_steady { result ≢ Status.WriteFault → K.faults sink.new ≡ K.faults sink.old }
{
    status_for(write_image(alloc, source, sink, wanted))
}
