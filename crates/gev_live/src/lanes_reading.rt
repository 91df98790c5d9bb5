//! The run whose acquirer is a reader with lanes.

ghost use Rattle.std.specs.Prelude.{◌≡◌, ◌<◌, length};
ghost use Rattle.client_machine.specs.Machine.{HasSubmittedNone};
ghost use Rattle.buffer_words.specs.Boards.{board_id};
ghost use Rattle.buffer_words.specs.Passes.{SameHands};
ghost use Rattle.buffer_words.specs.Workers.{Works};
ghost use Rattle.live_crew.specs.Crews.{IsNewPass, ComesBack, RanThree};
ghost use Rattle.gev_serve.specs.Wires.{wire};
ghost use Rattle.gev_serve.specs.Kinds.{is_cameras};
ghost use Rattle.gev_serve.specs.Work.{ServesAndStops};
ghost use Rattle.gev_apply.specs.Kinds.{is_applications};
ghost use Rattle.gev_apply.specs.Work.{AppliesAndStops};
ghost use Rattle.gev_control.specs.Ends.{is_fault_end};
ghost use Rattle.gev_acq.specs.Hosts.{outside_of};
ghost use Rattle.gev_acq.specs.Reading.{FaultsOf};
ghost use Rattle.gev_lanes.specs.Sides.{AreReadersOf, AreNew};
ghost use Rattle.lane_crew.specs.Kinds.{is_lane_readers};
ghost use Rattle.lane_crew.specs.Tools.{AreReady, ends_in};
ghost use Rattle.lane_crew.specs.Crew.{ReadsByLanes};

use crate::crew::{ApplicationSide, CameraSide, work_crew};
use buffer_words::{Board, Pass};
use gev_acq::Acquired;
use gev_apply::ApplicationDone;
use gev_links::{Clock, Gate, Link};
use gev_serve::CameraDone;
use lane_crew::{LanesReader, read_by_lanes};
use live_crew::Worked;
use std::alloc::Global;
use std::sync::Wait;
use std::thread::Threads;

/// Camera, acquisition with lanes and application at the same time.
pub(crate) fn work_with_lanes<
    R: Threads + Wait + Sync,
    L: Link + Send + Drop,
    S: Link + Send + Drop,
    C: Clock + Send + Drop,
    G: Gate + Sync,
>(
    rt: &R,
    alloc: Global,
    board: &Board,
    pass: &mut Pass,
    gate: &G,
    side: CameraSide<L, C>,
    mine: LanesReader<S, L, C>,
    taker: ApplicationSide<C>,
) -> (CameraDone<L, C>, Acquired<S, L, C>, ApplicationDone<C>)
    requires table { pass.old.table ≡ board_id board.now }
    requires camera { side.camera.shelf.count ≡ 0 }
    requires client { HasSubmittedNone mine.host.client }
    requires new { AreNew 0 mine.lanes mine.reader (ends_in mine.tools.items) }
    requires readers { AreReadersOf mine.lanes mine.reader }
    requires ready { AreReady (board_id board.now) mine.lanes mine.tools.items }
    requires some { 0 < length mine.lanes }
    ensures ran { RanThree
        (λ given back. ServesAndStops result.0.end side.camera (wire (L.received side.link) (L.sent side.link) (L.faults side.link))
        (wire (L.received result.0.link) (L.sent result.0.link) (L.faults result.0.link)) (C.told side.clock) (C.told result.0.clock) given back × Works is_cameras given back)
        (λ given back. ReadsByLanes mine.mode mine.camera mine.own (outside_of S.received L.received L.sent C.told mine.host)
        (outside_of S.received L.received L.sent C.told result.1.host) mine.reader mine.tools.items mine.turns result.1.end given back × Works is_lane_readers given back
        × FaultsOf (is_fault_end result.1.end) (S.faults mine.host.stream) (S.faults result.1.host.stream) (L.faults mine.host.control) (L.faults result.1.host.control))
        (λ given back. AppliesAndStops taker.frames (C.told taker.clock) (C.told result.2.clock) taker.lines.items result.2.lines.items result.2.answer given back × Works is_applications given back)
        pass.old pass.new }
    ensures table { pass.new.table ≡ pass.old.table }
    ensures hands { SameHands pass.old pass.new }
{
    work_crew(
        rt,
        alloc,
        board,
        pass,
        gate,
        side,
        move |given: Pass| -> Worked<Acquired<S, L, C>>
            requires { IsNewPass (board_id board.now) given × HasSubmittedNone mine.host.client × AreNew 0 mine.lanes mine.reader (ends_in mine.tools.items)
                × AreReadersOf mine.lanes mine.reader × AreReady (board_id board.now) mine.lanes mine.tools.items × (0 < length mine.lanes) }
            ensures { ReadsByLanes mine.mode mine.camera mine.own (outside_of S.received L.received L.sent C.told mine.host)
                (outside_of S.received L.received L.sent C.told result.done.host) mine.reader mine.tools.items mine.turns result.done.end given result.pass
                × Works is_lane_readers given result.pass
                × FaultsOf (is_fault_end result.done.end) (S.faults mine.host.stream) (S.faults result.done.host.stream) (L.faults mine.host.control) (L.faults result.done.host.control)
                × ComesBack given result.pass }
        { read_by_lanes(rt, alloc, board, given, gate, mine) },
        taker,
    )
}
