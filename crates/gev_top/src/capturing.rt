ghost use Rattle.std.specs.Prelude.{◌≡◌, ◌≢◌, ◌≤◌};
ghost use Rattle.script_runs.specs.Verdicts.{IfTold};
ghost use Rattle.gev_top.specs.Capturing.{status_from, script_status, ListsStreams, ScriptsCapture, IsCaptureRead, IsScriptRead, AnswersCapture, AnswersScript};

use capture_runs::Ending;
use capture_script::write_capture;
use capture_streams::list_streams;
use gev_links::{Sink, Source};
use gev_status::Status;
use std::alloc::Global;

/// The answer of `streams` where the run over a capture ended so.
fn status_from(ending: Ending) -> Status
    ensures { result ≡ status_from ending }
{
    match ending {
        Ending::Done { .. } => Status::Done,
        Ending::BadCapture { record, kind } => Status::BadCapture { record, kind },
        Ending::ReadFault => Status::ReadFault,
        Ending::WriteFault => Status::WriteFault,
        Ending::NoMemory => Status::NoMemory,
    }
}

/// The answer of `capture` for a port where the run over a capture ended so.
fn script_status(port: u16, ending: Ending) -> Status
    ensures { result ≡ script_status port ending }
{
    match ending {
        Ending::Done { told: true } => Status::Done,
        Ending::Done { told: false } => Status::NoDatagram { port },
        Ending::BadCapture { record, kind } => Status::BadCapture { record, kind },
        Ending::ReadFault => Status::ReadFault,
        Ending::WriteFault => Status::WriteFault,
        Ending::NoMemory => Status::NoMemory,
    }
}

/// Lists the image streams in the capture that the source gives.
pub(crate) fn streams<S: Source, K: Sink>(alloc: Global, source: &mut S, sink: &mut K) -> Status
    ensures cause { ListsStreams result (S.left source.old) (S.left source.new) (S.faults source.old) (S.faults source.new)
        (K.written sink.old) (K.written sink.new) (K.faults sink.old) (K.faults sink.new) }
    ensures exact { IfTold (S.left source.old) (λ content. AnswersCapture result content) }
    ensures reads_steady { IsCaptureRead result → S.faults source.new ≡ S.faults source.old }
    ensures writes_steady { result ≢ Status.WriteFault → K.faults sink.new ≡ K.faults sink.old }
{
    status_from(list_streams(alloc, source, sink))
}

/// Writes a replay script of the datagrams to one port of the capture that the source gives, with payloads of at most
/// `p` bytes and buffers of `bytes` bytes.
pub(crate) fn capture<S: Source, K: Sink>(
    alloc: Global,
    port: u16,
    p: u32,
    bytes: u32,
    source: &mut S,
    sink: &mut K,
) -> Status
    requires p_some { 528 ≤ p }
    requires p_most { p ≤ 8964 }
    requires some { 1 ≤ bytes }
    requires in_limits { bytes ≤ 67108864 }
    ensures cause { ScriptsCapture port p bytes result (S.left source.old) (S.left source.new) (S.faults source.old) (S.faults source.new)
        (K.written sink.old) (K.written sink.new) (K.faults sink.old) (K.faults sink.new) }
    ensures exact { IfTold (S.left source.old) (λ content. AnswersScript port result content) }
    ensures reads_steady { IsScriptRead port result → S.faults source.new ≡ S.faults source.old }
    ensures writes_steady { result ≢ Status.WriteFault → K.faults sink.new ≡ K.faults sink.old }
{
    script_status(port, write_capture(alloc, port, p, bytes, source, sink))
}
