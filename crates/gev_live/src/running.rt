//! The workers of a run.

ghost use Rattle.std.specs.Prelude.{◌≡◌, [], vec_capacity};
ghost use Rattle.board_machine.specs.Actors.{born};
ghost use Rattle.buffer_words.specs.Boards.{board_id};
ghost use Rattle.buffer_words.specs.Passes.{SameHands, own};
ghost use Rattle.gev_live.specs.Told.{live_config, live_camera, told_back, AreNew};
ghost use Rattle.gev_live.specs.Ran.{RanCrew};

use crate::crew::{ApplicationSide, CameraSide};
use crate::ends::Ends;
use crate::numbers::Numbers;
use crate::reading::work_with_reader;
use acq_core::Acq;
use buffer_words::{Board, Pass};
use camera_sim::Camera;
use control_client::Client;
use gev_acq::{Acquired, Host, Reader, Turn};
use gev_apply::ApplicationDone;
use gev_links::{Clock, Gate, Link};
use gev_serve::CameraDone;
use std::alloc::Global;
use std::sync::Wait;
use std::thread::Threads;

/// Runs the workers.
pub(crate) fn run_crew<
    R: Threads + Wait + Sync,
    L: Link + Send + Drop,
    S: Link + Send + Drop,
    C: Clock + Send + Drop,
    G: Gate + Sync,
>(
    rt: &R,
    alloc: Global,
    board: &Board,
    pass: &mut Pass,
    gate: &G,
    numbers: Numbers,
    made: (Camera, Acq, Vec<Turn>),
    ends: Ends<L, S, C>,
) -> (CameraDone<L, C>, Acquired<S, L, C>, ApplicationDone<C>)
    requires table { pass.old.table ≡ board_id board.now }
    requires first { pass.old.number ≡ 0 }
    requires childless { born (own pass.old) ≡ [] }
    requires made { AreNew numbers.seed numbers.turns made.0 made.1 made.2.items (vec_capacity made.2) }
    ensures table { pass.new.table ≡ pass.old.table }
    ensures hands { SameHands pass.old pass.new }
    ensures ran { (ran : RanCrew numbers.mode live_config (live_camera numbers.seed) (L.address ends.camera) (S.address ends.stream)
        ends.told (told_back L.received L.sent L.faults S.received S.sent S.faults C.told result.0 result.1 result.2)
        numbers.frames numbers.turns result.0.end result.1.end result.2.answer result.2.lines.items pass.old pass.new) × (ran.journal ≡ result.1.journal.items) }
{
    let Ends {
        camera: link,
        stream,
        control,
        camera_clock,
        host_clock,
        app_clock,
    } = ends;
    let peer = link.peer();
    let own = stream.peer();
    let host = Host {
        stream,
        control,
        clock: host_clock,
        client: Client::new(),
    };
    let (camera, acq, journal) = made;
    let reader = Reader {
        acq,
        host,
        camera: peer,
        own,
        journal,
        turns: numbers.turns,
        mode: numbers.mode,
    };
    let side = CameraSide {
        camera,
        link,
        clock: camera_clock,
    };
    let taker = ApplicationSide {
        clock: app_clock,
        frames: numbers.frames,
        lines: Vec::new(alloc),
    };
    work_with_reader(rt, alloc, board, pass, gate, side, reader, taker)
}
