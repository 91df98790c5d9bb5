//! A recorded live run over ports.

ghost use Rattle.std.specs.Prelude.{◌≡◌, ◌≢◌, ◌+◌, ◌≤◌, ℕ, [], ◌∷◌, None, IfSome, IfOk, IfErr};
ghost use Rattle.board_machine.specs.Histories.{After};
ghost use Rattle.board_machine.specs.Laws.{IsAlone};
ghost use Rattle.gev_links.specs.Faults.{Rose};
ghost use Rattle.gev_links.specs.Links.{IsBlank};
ghost use Rattle.gev_program.specs.Bound.{AllToldOfThree, RaisesBy};
ghost use Rattle.gev_top.specs.LiveWords.{IsRecordable};
ghost use Rattle.gev_top.specs.Completeness.{NoneRose, EndsLive};
ghost use Rattle.buffer_words.specs.Boards.{board_id};
ghost use Rattle.gev_program.specs.Runs.{GivesAllBack, IsBound, IsUntold, RecordsOver, RunsNothing, told_by};

use crate::binding::bind_three;
use crate::returning::give_back;
use buffer_words::{Board, Pass};
use gev_links::{Gate, Ports, Sink};
use gev_live::Ends;
use gev_record::Tape;
use gev_status::Status;
use gev_top::LiveNumbers;
use gev_types::NoMemory;
use live_recording::record_over;
use std::alloc::Global;
use std::sync::Wait;
use std::thread::Threads;

/// The links and clocks of a run, with the stream's link behind a tape for so many receives. Without memory they come
/// back.
fn with_tape<P: Ports>(
    alloc: Global,
    ends: Ends<P::L, P::L, P::C>,
    turns: u32,
) -> Result<Ends<P::L, Tape<P::L>, P::C>, Ends<P::L, P::L, P::C>>
    requires stream { IsBlank ends.told.stream.received }
    ensures camera { IfOk result (λ made. made.camera ≡ ends.camera) }
    ensures stream { IfOk result (λ made. made.stream.inner ≡ ends.stream) }
    ensures turns { IfOk result (λ made. made.stream.turns ≡ turns) }
    ensures kept { IfOk result (λ made. made.stream.kept ≡ []) }
    ensures control { IfOk result (λ made. made.control ≡ ends.control) }
    ensures camera_clock { IfOk result (λ made. made.camera_clock ≡ ends.camera_clock) }
    ensures host_clock { IfOk result (λ made. made.host_clock ≡ ends.host_clock) }
    ensures app_clock { IfOk result (λ made. made.app_clock ≡ ends.app_clock) }
    ensures told { IfOk result (λ made. made.told ≡ ends.told) }
    ensures back { IfErr result (λ same. same ≡ ends) }
{
    let Ends {
        camera,
        stream,
        control,
        camera_clock,
        host_clock,
        app_clock,
    } = ends;
    match Tape::new(alloc, stream, turns) {
        Ok(stream) => Ok(Ends {
            camera,
            stream,
            control,
            camera_clock,
            host_clock,
            app_clock,
        }),
        Err((stream, NoMemory)) => Err(Ends {
            camera,
            stream,
            control,
            camera_clock,
            host_clock,
            app_clock,
        }),
    }
}

/// Gives a recorded run's links and clocks back, the stream's link without its tape.
fn give_taped<P: Ports>(ports: &mut P, ends: Ends<P::L, Tape<P::L>, P::C>)
    ensures links { AllToldOfThree (P.links ports.old) (P.links ports.new) (ends.camera ∷ ends.stream.inner ∷ ends.control ∷ []) }
    ensures clocks { AllToldOfThree (P.clocks ports.old) (P.clocks ports.new) (ends.camera_clock ∷ ends.host_clock ∷ ends.app_clock ∷ []) }
    ensures binds { P.binds ports.new ≡ P.binds ports.old }
    ensures bound { P.bound ports.new ≡ P.bound ports.old }
    ensures faults { RaisesBy (P.L.faults ends.camera) (P.L.faults ends.stream.inner) (P.L.faults ends.control) (P.faults ports.old) (P.faults ports.new) }
    ensures told { ends.told ≡ told_by P.L.received P.L.sent P.L.faults P.C.told ends.camera ends.stream.inner ends.control ends.camera_clock ends.host_clock ends.app_clock }
{
    let Ends {
        camera,
        stream,
        control,
        camera_clock,
        host_clock,
        app_clock,
    } = ends;
    let ends = Ends {
        camera,
        stream: stream.into_inner(),
        control,
        camera_clock,
        host_clock,
        app_clock,
    };
    give_back(ports, ends);
}

/// Records a run over these links and clocks on a new board, and gives all back.
fn record_on<R: Threads + Wait + Sync, K: Sink, P: Ports, G: Gate + Sync>(
    rt: &R,
    alloc: Global,
    numbers: LiveNumbers,
    ends: Ends<P::L, Tape<P::L>, P::C>,
    ports: &mut P,
    gate: &G,
    sink: &mut K,
    kept: &mut Option<(Board, Pass)>,
) -> Status
    requires within { IsRecordable numbers }
    requires unkept { kept.old ≡ None }
    requires turns { ends.stream.turns ≡ numbers.turns }
    requires empty { ends.stream.kept ≡ [] }
    requires untold { IsUntold ends.told }
    ensures recorded { IfSome kept.new (λ k. RecordsOver P.L.received P.L.sent P.L.faults P.C.told numbers (P.L.address ends.camera) (P.L.address ends.stream.inner) result (P.links ports.old) (P.links ports.new)
        (P.clocks ports.old) (P.clocks ports.new) (K.written sink.old) (K.written sink.new) (K.faults sink.old) (K.faults sink.new) k.1.seen) }
    ensures alone { IfSome kept.new (λ k. IsAlone (After k.1.seen) 0) }
    ensures own { IfSome kept.new (λ k. k.1.table ≡ board_id k.0) }
    ensures wanting { kept.new ≡ None → result ≡ Status.NoMemory }
    ensures back { kept.new ≡ None → GivesAllBack P.L.received P.L.sent P.L.faults P.C.told (P.links ports.old) (P.links ports.new) (P.clocks ports.old) (P.clocks ports.new) }
    ensures unwritten { kept.new ≡ None → K.written sink.new ≡ K.written sink.old }
    ensures no_fault { kept.new ≡ None → K.faults sink.new ≡ K.faults sink.old }
    ensures binds { P.binds ports.new ≡ P.binds ports.old }
    ensures bound { P.bound ports.new ≡ P.bound ports.old }
    ensures link_fault { result ≡ Status.LinkFault → Rose (P.faults ports.old) (P.faults ports.new) }
    ensures links_steady { result ≢ Status.LinkFault → P.faults ports.new ≡ P.faults ports.old }
    ensures writes_steady { result ≢ Status.WriteFault → K.faults sink.new ≡ K.faults sink.old }
    ensures understood { (place : ℕ) → result ≢ Status.Usage place }
    ensures complete { NoneRose (K.faults sink.old) (K.faults sink.new) → result ≢ Status.LinkFault → EndsLive result }
{
    match Board::new(alloc) {
        Ok(made) => {
            let (board, mut pass) = made;
            let (status, ends) = record_over(
                rt,
                alloc,
                &board,
                &mut pass,
                numbers.seed,
                numbers.frames,
                numbers.buffers,
                numbers.turns,
                ends,
                gate,
                sink,
            );
            give_taped(ports, ends);
            // All that the pass has seen is one run of the board.
            pass.witness();
            *kept = Some((board, pass));
            status
        }
        Err(_) => {
            give_taped(ports, ends);
            Status::NoMemory
        }
    }
}

/// Records a run over these links and clocks on a new tape, and gives all back.
fn record_new<R: Threads + Wait + Sync, K: Sink, P: Ports, G: Gate + Sync>(
    rt: &R,
    alloc: Global,
    numbers: LiveNumbers,
    ends: Ends<P::L, P::L, P::C>,
    ports: &mut P,
    gate: &G,
    sink: &mut K,
    kept: &mut Option<(Board, Pass)>,
) -> Status
    requires within { IsRecordable numbers }
    requires unkept { kept.old ≡ None }
    requires untold { IsUntold ends.told }
    ensures recorded { IfSome kept.new (λ k. RecordsOver P.L.received P.L.sent P.L.faults P.C.told numbers (P.L.address ends.camera) (P.L.address ends.stream) result (P.links ports.old) (P.links ports.new)
        (P.clocks ports.old) (P.clocks ports.new) (K.written sink.old) (K.written sink.new) (K.faults sink.old) (K.faults sink.new) k.1.seen) }
    ensures alone { IfSome kept.new (λ k. IsAlone (After k.1.seen) 0) }
    ensures own { IfSome kept.new (λ k. k.1.table ≡ board_id k.0) }
    ensures wanting { kept.new ≡ None → result ≡ Status.NoMemory }
    ensures back { kept.new ≡ None → GivesAllBack P.L.received P.L.sent P.L.faults P.C.told (P.links ports.old) (P.links ports.new) (P.clocks ports.old) (P.clocks ports.new) }
    ensures unwritten { kept.new ≡ None → K.written sink.new ≡ K.written sink.old }
    ensures no_fault { kept.new ≡ None → K.faults sink.new ≡ K.faults sink.old }
    ensures binds { P.binds ports.new ≡ P.binds ports.old }
    ensures bound { P.bound ports.new ≡ P.bound ports.old }
    ensures link_fault { result ≡ Status.LinkFault → Rose (P.faults ports.old) (P.faults ports.new) }
    ensures links_steady { result ≢ Status.LinkFault → P.faults ports.new ≡ P.faults ports.old }
    ensures writes_steady { result ≢ Status.WriteFault → K.faults sink.new ≡ K.faults sink.old }
    ensures understood { (place : ℕ) → result ≢ Status.Usage place }
    ensures complete { NoneRose (K.faults sink.old) (K.faults sink.new) → result ≢ Status.LinkFault → EndsLive result }
{
    match with_tape::<P>(alloc, ends, numbers.turns as u32) {
        Ok(taped) => record_on(rt, alloc, numbers, taped, ports, gate, sink, kept),
        Err(same) => {
            give_back(ports, same);
            Status::NoMemory
        }
    }
}

/// A recorded live run with these numbers: as `run_live`, with one lane, over a tape that keeps what the stream's link
/// gives; and in place of the lines a replay script of it is written.
pub fn run_recorded<R: Threads + Wait + Sync, K: Sink, P: Ports, G: Gate + Sync>(
    rt: &R,
    alloc: Global,
    numbers: LiveNumbers,
    ports: &mut P,
    gate: &G,
    sink: &mut K,
    kept: &mut Option<(Board, Pass)>,
) -> Status
    requires within { IsRecordable numbers }
    requires unkept { kept.old ≡ None }
    ensures recorded { IfSome kept.new (λ k. IsBound (P.bound ports.old) (P.bound ports.new) (λ camera stream. RecordsOver P.L.received P.L.sent P.L.faults P.C.told numbers camera stream result
        (P.links ports.old) (P.links ports.new) (P.clocks ports.old) (P.clocks ports.new) (K.written sink.old) (K.written sink.new) (K.faults sink.old) (K.faults sink.new) k.1.seen)) }
    ensures alone { IfSome kept.new (λ k. IsAlone (After k.1.seen) 0) }
    ensures own { IfSome kept.new (λ k. k.1.table ≡ board_id k.0) }
    ensures none { kept.new ≡ None → RunsNothing P.L.received P.L.sent P.L.faults P.C.told result (P.binds ports.old) (P.binds ports.new) (P.links ports.old) (P.links ports.new)
        (P.clocks ports.old) (P.clocks ports.new) (K.written sink.old) (K.written sink.new) (K.faults sink.old) (K.faults sink.new) }
    ensures binds { P.binds ports.new ≤ P.binds ports.old + 3 }
    ensures link_fault { result ≡ Status.LinkFault → Rose (P.faults ports.old) (P.faults ports.new) }
    ensures links_steady { result ≢ Status.LinkFault → P.faults ports.new ≡ P.faults ports.old }
    ensures writes_steady { result ≢ Status.WriteFault → K.faults sink.new ≡ K.faults sink.old }
    ensures understood { (place : ℕ) → result ≢ Status.Usage place }
    ensures complete { NoneRose (K.faults sink.old) (K.faults sink.new) → result ≢ Status.LinkFault → EndsLive result }
{
    match bind_three(ports) {
        Ok(ends) => record_new(rt, alloc, numbers, ends, ports, gate, sink, kept),
        Err(_) => Status::LinkFault,
    }
}
