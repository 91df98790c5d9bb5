//! The run whose acquirer is one reader.

ghost use Rattle.std.specs.Prelude.{◌≡◌, ◌+◌, ◌≤◌, [], vec_len, vec_capacity};
ghost use Rattle.client_machine.specs.Machine.{HasSubmittedNone};
ghost use Rattle.acq_core.specs.Receiver.{config_of, buffers, Stands};
ghost use Rattle.acq_core.specs.Waiting.{waiting_fills, waiting_requests};
ghost use Rattle.buffer_words.specs.Boards.{board_id};
ghost use Rattle.buffer_words.specs.Passes.{SameHands};
ghost use Rattle.buffer_words.specs.Workers.{Works};
ghost use Rattle.live_crew.specs.Crews.{IsNewPass, ComesBack, RanThree};
ghost use Rattle.gev_serve.specs.Wires.{wire};
ghost use Rattle.gev_serve.specs.Kinds.{is_cameras};
ghost use Rattle.gev_serve.specs.Work.{ServesAndStops};
ghost use Rattle.gev_apply.specs.Kinds.{is_applications};
ghost use Rattle.gev_apply.specs.Work.{AppliesAndStops};
ghost use Rattle.gev_control.specs.Ends.{is_fault_end};
ghost use Rattle.gev_acq.specs.Hosts.{outside_of};
ghost use Rattle.gev_acq.specs.Reading.{FaultsOf};
ghost use Rattle.gev_acq.specs.Kinds.{is_readers};
ghost use Rattle.gev_acq.specs.Reads.{Reads};

use crate::crew::{ApplicationSide, CameraSide, work_crew};
use buffer_words::{Board, Pass};
use gev_acq::{Acquired, Reader, read};
use gev_apply::ApplicationDone;
use gev_links::{Clock, Gate, Link};
use gev_serve::CameraDone;
use live_crew::Worked;
use std::alloc::Global;
use std::sync::Wait;
use std::thread::Threads;

/// Camera, reader and application at the same time.
pub(crate) fn work_with_reader<
    R: Threads + Wait + Sync,
    L: Link + Send + Drop,
    S: Link + Send + Drop,
    C: Clock + Send + Drop,
    G: Gate + Sync,
>(
    rt: &R,
    alloc: Global,
    board: &Board,
    pass: &mut Pass,
    gate: &G,
    side: CameraSide<L, C>,
    reader: Reader<S, L, C>,
    taker: ApplicationSide<C>,
) -> (CameraDone<L, C>, Acquired<S, L, C>, ApplicationDone<C>)
    requires table { pass.old.table ≡ board_id board.now }
    requires camera { side.camera.shelf.count ≡ 0 }
    requires receiver { Stands reader.acq [] × (waiting_fills reader.acq ≡ []) × (waiting_requests reader.acq ≡ []) × (buffers reader.acq ≡ []) }
    requires client { HasSubmittedNone reader.host.client }
    requires room { vec_len reader.journal + reader.turns ≤ vec_capacity reader.journal }
    ensures ran { RanThree
        (λ given back. ServesAndStops result.0.end side.camera (wire (L.received side.link) (L.sent side.link) (L.faults side.link))
        (wire (L.received result.0.link) (L.sent result.0.link) (L.faults result.0.link)) (C.told side.clock) (C.told result.0.clock) given back × Works is_cameras given back)
        (λ given back. Reads reader.mode (config_of reader.acq) reader.camera reader.own (outside_of S.received L.received L.sent C.told reader.host)
        (outside_of S.received L.received L.sent C.told result.1.host) reader.journal.items result.1.journal.items reader.turns result.1.end given back × Works (is_readers reader.mode) given back
        × FaultsOf (is_fault_end result.1.end) (S.faults reader.host.stream) (S.faults result.1.host.stream) (L.faults reader.host.control) (L.faults result.1.host.control))
        (λ given back. AppliesAndStops taker.frames (C.told taker.clock) (C.told result.2.clock) taker.lines.items result.2.lines.items result.2.answer given back × Works is_applications given back)
        pass.old pass.new }
    ensures table { pass.new.table ≡ pass.old.table }
    ensures hands { SameHands pass.old pass.new }
{
    work_crew(
        rt,
        alloc,
        board,
        pass,
        gate,
        side,
        move |given: Pass| -> Worked<Acquired<S, L, C>>
            requires { IsNewPass (board_id board.now) given × Stands reader.acq [] × HasSubmittedNone reader.host.client × (waiting_fills reader.acq ≡ []) × (waiting_requests reader.acq ≡ [])
                × (buffers reader.acq ≡ []) × (vec_len reader.journal + reader.turns ≤ vec_capacity reader.journal) }
            ensures { Reads reader.mode (config_of reader.acq) reader.camera reader.own (outside_of S.received L.received L.sent C.told reader.host)
                (outside_of S.received L.received L.sent C.told result.done.host) reader.journal.items result.done.journal.items reader.turns result.done.end given result.pass
                × Works (is_readers reader.mode) given result.pass
                × FaultsOf (is_fault_end result.done.end) (S.faults reader.host.stream) (S.faults result.done.host.stream) (L.faults reader.host.control) (L.faults result.done.host.control)
                × ComesBack given result.pass }
        { read(rt, board, given, gate, reader) },
        taker,
    )
}
