ghost use Rattle.std.specs.Prelude.{◌≡◌, ◌≢◌};
ghost use Rattle.script_runs.specs.Outcomes.{RunEnds};
ghost use Rattle.script_runs.specs.Verdicts.{outcome, IfTold};
ghost use Rattle.gev_top.specs.Answers.{Replays, Serves, IsDecided};
ghost use Rattle.gev_top.specs.Explained.{Explains};
ghost use Rattle.gev_top.specs.Scripts.{status_of, IfEnded, AnswersContent};
ghost use Rattle.gev_top.specs.declared.command.Command.TheVariants as commands;

use camera_replay::CameraRun;
use gev_links::{Sink, Source};
use gev_status::Status;
use gev_types::NoMemory;
use script_explain::Explain;
use script_replay::Replay;
use script_runs::{Ending, Modelled, run_modelled};
use std::alloc::Global;

/// The answer of a script that ended so.
fn status_of(ending: Ending) -> Status
    ensures { result ≡ status_of ending }
{
    match ending {
        Ending::Done => Status::Done,
        Ending::BadLine { line, kind } => Status::BadScript { line, kind },
        Ending::ReadFault => Status::ReadFault,
        Ending::WriteFault => Status::WriteFault,
        Ending::NoMemory => Status::NoMemory,
    }
}

/// Runs the script that the source gives over a machine, and writes its report.
fn run<S: Source, K: Sink, M: Modelled>(
    alloc: Global,
    source: &mut S,
    sink: &mut K,
    machine: &mut M,
) -> Status
    ensures ends { (m : M.Plain) → M.stands_for machine.old m
        → IfEnded (λ ending. RunEnds M.plain_runs M.plain_refuses m ending
        (S.left source.old) (S.left source.new) (S.faults source.old) (S.faults source.new)
        (K.written sink.old) (K.written sink.new) (K.faults sink.old) (K.faults sink.new)) result }
    ensures exact { (m : M.Plain) → M.stands_for machine.old m → M.behind m 0
        → IfTold (S.left source.old) (λ content. AnswersContent result (outcome M.verdict content)) }
    ensures reads_steady { result ≢ Status.ReadFault → S.faults source.new ≡ S.faults source.old }
    ensures writes_steady { result ≢ Status.WriteFault → K.faults sink.new ≡ K.faults sink.old }
{
    status_of(run_modelled(alloc, source, sink, machine))
}

/// Runs a replay script and writes its report.
pub(crate) fn replay<S: Source, K: Sink>(alloc: Global, source: &mut S, sink: &mut K) -> Status
    ensures cause { Replays result (S.left source.old) (S.left source.new) (S.faults source.old) (S.faults source.new)
        (K.written sink.old) (K.written sink.new) (K.faults sink.old) (K.faults sink.new) }
    ensures exact { IfTold (S.left source.old) (λ content. IsDecided commands.Replay result content) }
    ensures reads_steady { result ≢ Status.ReadFault → S.faults source.new ≡ S.faults source.old }
    ensures writes_steady { result ≢ Status.WriteFault → K.faults sink.new ≡ K.faults sink.old }
{
    match Replay::new(alloc) {
        Ok(mut machine) => run(alloc, source, sink, &mut machine),
        Err(NoMemory) => Status::NoMemory,
    }
}

/// Runs a replay script and writes its report, and before the report of each line what it tells of lost frames and
/// of datagrams that are in no image.
pub(crate) fn explain<S: Source, K: Sink>(alloc: Global, source: &mut S, sink: &mut K) -> Status
    ensures cause { Explains result (S.left source.old) (S.left source.new) (S.faults source.old) (S.faults source.new)
        (K.written sink.old) (K.written sink.new) (K.faults sink.old) (K.faults sink.new) }
    ensures exact { IfTold (S.left source.old) (λ content. IsDecided commands.Explain result content) }
    ensures reads_steady { result ≢ Status.ReadFault → S.faults source.new ≡ S.faults source.old }
    ensures writes_steady { result ≢ Status.WriteFault → K.faults sink.new ≡ K.faults sink.old }
{
    match Explain::new(alloc) {
        Ok(mut machine) => run(alloc, source, sink, &mut machine),
        Err(NoMemory) => Status::NoMemory,
    }
}

/// Runs a camera script and writes what the camera answers.
pub(crate) fn camera<S: Source, K: Sink>(alloc: Global, source: &mut S, sink: &mut K) -> Status
    ensures cause { Serves result (S.left source.old) (S.left source.new) (S.faults source.old) (S.faults source.new)
        (K.written sink.old) (K.written sink.new) (K.faults sink.old) (K.faults sink.new) }
    ensures exact { IfTold (S.left source.old) (λ content. IsDecided commands.Camera result content) }
    ensures reads_steady { result ≢ Status.ReadFault → S.faults source.new ≡ S.faults source.old }
    ensures writes_steady { result ≢ Status.WriteFault → K.faults sink.new ≡ K.faults sink.old }
{
    let mut machine = CameraRun::new();
    run(alloc, source, sink, &mut machine)
}
