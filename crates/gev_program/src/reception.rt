//! The frames of a camera on the network, over ports.

ghost use Rattle.std.specs.Prelude.{◌≡◌, ◌≢◌, ◌+◌, ◌≤◌, ℕ, None, option_map, IfSome};
ghost use Rattle.board_machine.specs.Histories.{After};
ghost use Rattle.board_machine.specs.Laws.{IsAlone};
ghost use Rattle.buffer_words.specs.Boards.{board_id};
ghost use Rattle.camera_words.specs.Receiving.{IsInRange};
ghost use Rattle.gev_links.specs.Faults.{Rose};
ghost use Rattle.gev_top.specs.Completeness.{NoneRose, EndsReception};
ghost use Rattle.live_promises.specs.Over.{ReceivesSo};

use buffer_words::{Board, Pass};
use camera_words::Settings;
use gev_far::{FarPorts, PeekLink};
use gev_links::{Gate, Sink, Source};
use gev_receive::receive_over;
use gev_status::Status;
use std::alloc::Global;
use std::sync::Wait;
use std::thread::Threads;

/// Receives the frames of the camera that the settings name, and keeps the run's board and the run's pass, where a board
/// was made.
pub(crate) fn run_receive<
    R: Threads + Wait + Sync,
    S: Source,
    P: FarPorts,
    K: Sink,
    G: Gate + Sync,
>(
    rt: &R,
    alloc: Global,
    settings: &Settings,
    source: &mut S,
    ports: &mut P,
    gate: &G,
    sink: &mut K,
    kept: &mut Option<(Board, Pass)>,
) -> Status
where
    P::L: PeekLink,
    requires within { IsInRange settings.now }
    requires unkept { kept.old ≡ None }
    ensures receives { ReceivesSo P.L.received P.L.sent P.L.faults P.C.told settings.now result (P.bound ports.old) (P.bound ports.new)
        (P.links ports.old) (P.links ports.new) (P.clocks ports.old) (P.clocks ports.new) (S.left source.new)
        (K.written sink.old) (K.written sink.new) (K.faults sink.old) (K.faults sink.new) (option_map (λ k. k.1.seen) kept.new) }
    ensures alone { IfSome kept.new (λ k. IsAlone (After k.1.seen) 0) }
    ensures own { IfSome kept.new (λ k. k.1.table ≡ board_id k.0) }
    ensures binds { P.binds ports.new ≤ P.binds ports.old + 3 }
    ensures link_fault { result ≡ Status.LinkFault → Rose (P.faults ports.old) (P.faults ports.new) }
    ensures links_steady { result ≢ Status.LinkFault → P.faults ports.new ≡ P.faults ports.old }
    ensures writes_steady { result ≢ Status.WriteFault → result ≢ Status.LinkFault → K.faults sink.new ≡ K.faults sink.old }
    ensures understood { (place : ℕ) → result ≢ Status.Usage place }
    ensures complete { NoneRose (K.faults sink.old) (K.faults sink.new) → NoneRose (P.faults ports.old) (P.faults ports.new) → EndsReception result }
{
    receive_over(rt, alloc, settings, ports, source, sink, gate, kept)
}
