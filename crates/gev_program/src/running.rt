//! A live run over ports.

ghost use Rattle.std.specs.Prelude.{◌≡◌, ◌≢◌, ◌+◌, ◌≤◌, ℕ, None, IfSome};
ghost use Rattle.board_machine.specs.Histories.{After};
ghost use Rattle.board_machine.specs.Laws.{IsAlone};
ghost use Rattle.gev_links.specs.Faults.{Rose};
ghost use Rattle.gev_top.specs.LiveWords.{IsInRange};
ghost use Rattle.gev_top.specs.Completeness.{NoneRose, EndsLive};
ghost use Rattle.buffer_words.specs.Boards.{board_id};
ghost use Rattle.gev_program.specs.Runs.{GivesAllBack, IsBound, IsUntold, RunsOver, RunsNothing};

use crate::binding::bind_three;
use crate::returning::give_back;
use buffer_words::{Board, Pass};
use gev_links::{Gate, Ports, Sink};
use gev_live::{Ends, live_over};
use gev_status::Status;
use gev_top::LiveNumbers;
use std::alloc::Global;
use std::sync::Wait;
use std::thread::Threads;

/// Runs over these links and clocks on a new board, and gives all back.
fn run_over<R: Threads + Wait + Sync, K: Sink, P: Ports, G: Gate + Sync>(
    rt: &R,
    alloc: Global,
    numbers: LiveNumbers,
    ends: Ends<P::L, P::L, P::C>,
    ports: &mut P,
    gate: &G,
    sink: &mut K,
    kept: &mut Option<(Board, Pass)>,
) -> Status
    requires within { IsInRange numbers }
    requires unkept { kept.old ≡ None }
    requires untold { IsUntold ends.told }
    ensures live { IfSome kept.new (λ k. RunsOver P.L.received P.L.sent P.L.faults P.C.told numbers (P.L.address ends.camera) (P.L.address ends.stream) result (P.links ports.old) (P.links ports.new)
        (P.clocks ports.old) (P.clocks ports.new) (K.written sink.old) (K.written sink.new) (K.faults sink.old) (K.faults sink.new) k.1.seen) }
    ensures alone { IfSome kept.new (λ k. IsAlone (After k.1.seen) 0) }
    ensures own { IfSome kept.new (λ k. k.1.table ≡ board_id k.0) }
    ensures wanting { kept.new ≡ None → result ≡ Status.NoMemory }
    ensures back { kept.new ≡ None → GivesAllBack P.L.received P.L.sent P.L.faults P.C.told (P.links ports.old) (P.links ports.new) (P.clocks ports.old) (P.clocks ports.new) }
    ensures unwritten { kept.new ≡ None → K.written sink.new ≡ K.written sink.old }
    ensures no_fault { kept.new ≡ None → K.faults sink.new ≡ K.faults sink.old }
    ensures binds { P.binds ports.new ≡ P.binds ports.old }
    ensures bound { P.bound ports.new ≡ P.bound ports.old }
    ensures link_fault { result ≡ Status.LinkFault → Rose (P.faults ports.old) (P.faults ports.new) }
    ensures links_steady { result ≢ Status.LinkFault → P.faults ports.new ≡ P.faults ports.old }
    ensures writes_steady { result ≢ Status.WriteFault → K.faults sink.new ≡ K.faults sink.old }
    ensures understood { (place : ℕ) → result ≢ Status.Usage place }
    ensures complete { NoneRose (K.faults sink.old) (K.faults sink.new) → result ≢ Status.LinkFault → EndsLive result }
{
    match Board::new(alloc) {
        Ok(made) => {
            let (board, mut pass) = made;
            let (status, ends) = live_over(
                rt,
                alloc,
                &board,
                &mut pass,
                numbers.seed,
                numbers.frames,
                numbers.buffers,
                numbers.lanes,
                numbers.turns,
                ends,
                gate,
                sink,
                numbers.mode,
            );
            give_back(ports, ends);
            // All that the pass has seen is one run of the board.
            pass.witness();
            *kept = Some((board, pass));
            status
        }
        Err(_) => {
            give_back(ports, ends);
            Status::NoMemory
        }
    }
}

/// A live run with these numbers: binds three links, takes three clocks, makes the board and runs over them, and
/// gives links and clocks back in the order in which they came. The run's board and the run's pass, which is over
/// that board, are kept in `kept`, where a board was made.
pub fn run_live<R: Threads + Wait + Sync, K: Sink, P: Ports, G: Gate + Sync>(
    rt: &R,
    alloc: Global,
    numbers: LiveNumbers,
    ports: &mut P,
    gate: &G,
    sink: &mut K,
    kept: &mut Option<(Board, Pass)>,
) -> Status
    requires within { IsInRange numbers }
    requires unkept { kept.old ≡ None }
    ensures live { IfSome kept.new (λ k. IsBound (P.bound ports.old) (P.bound ports.new) (λ camera stream. RunsOver P.L.received P.L.sent P.L.faults P.C.told numbers camera stream result
        (P.links ports.old) (P.links ports.new) (P.clocks ports.old) (P.clocks ports.new) (K.written sink.old) (K.written sink.new) (K.faults sink.old) (K.faults sink.new) k.1.seen)) }
    ensures alone { IfSome kept.new (λ k. IsAlone (After k.1.seen) 0) }
    ensures own { IfSome kept.new (λ k. k.1.table ≡ board_id k.0) }
    ensures none { kept.new ≡ None → RunsNothing P.L.received P.L.sent P.L.faults P.C.told result (P.binds ports.old) (P.binds ports.new) (P.links ports.old) (P.links ports.new)
        (P.clocks ports.old) (P.clocks ports.new) (K.written sink.old) (K.written sink.new) (K.faults sink.old) (K.faults sink.new) }
    ensures binds { P.binds ports.new ≤ P.binds ports.old + 3 }
    ensures link_fault { result ≡ Status.LinkFault → Rose (P.faults ports.old) (P.faults ports.new) }
    ensures links_steady { result ≢ Status.LinkFault → P.faults ports.new ≡ P.faults ports.old }
    ensures writes_steady { result ≢ Status.WriteFault → K.faults sink.new ≡ K.faults sink.old }
    ensures understood { (place : ℕ) → result ≢ Status.Usage place }
    ensures complete { NoneRose (K.faults sink.old) (K.faults sink.new) → result ≢ Status.LinkFault → EndsLive result }
{
    match bind_three(ports) {
        Ok(ends) => run_over(rt, alloc, numbers, ends, ports, gate, sink, kept),
        Err(_) => Status::LinkFault,
    }
}
