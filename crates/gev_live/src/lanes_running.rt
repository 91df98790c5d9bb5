//! The lanes' passes are split off, and the workers run.

ghost use Rattle.std.specs.Prelude.{◌≡◌, ◌<◌, [], vec_capacity};
ghost use Rattle.board_machine.specs.Actors.{born};
ghost use Rattle.buffer_words.specs.Boards.{board_id};
ghost use Rattle.buffer_words.specs.Passes.{SameHands, own};
ghost use Rattle.gev_live.specs.Told.{live_camera, told_back};
ghost use Rattle.gev_live.specs.LanesMade.{AreNew};
ghost use Rattle.gev_live.specs.LanesRan.{RanLanes};

use crate::crew::{ApplicationSide, CameraSide};
use crate::ends::Ends;
use crate::lane_passes::split_lanes;
use crate::lanes_making::NewLanes;
use crate::lanes_reading::work_with_lanes;
use crate::numbers::Numbers;
use buffer_words::{Board, Pass};
use camera_sim::Camera;
use control_client::Client;
use gev_acq::{Acquired, Host};
use gev_apply::ApplicationDone;
use gev_links::{Clock, Gate, Link};
use gev_serve::CameraDone;
use lane_crew::LanesReader;
use std::alloc::Global;
use std::sync::Wait;
use std::thread::Threads;

/// Splits a pass off for each lane, and runs the workers.
pub(crate) fn run_lanes_crew<
    R: Threads + Wait + Sync,
    L: Link + Send + Drop,
    S: Link + Send + Drop,
    C: Clock + Send + Drop,
    G: Gate + Sync,
>(
    rt: &R,
    alloc: Global,
    board: &Board,
    pass: &mut Pass,
    gate: &G,
    numbers: Numbers,
    made: (Camera, NewLanes),
    ends: Ends<L, S, C>,
) -> (CameraDone<L, C>, Acquired<S, L, C>, ApplicationDone<C>)
    requires table { pass.old.table ≡ board_id board.now }
    requires first { pass.old.number ≡ 0 }
    requires childless { born (own pass.old) ≡ [] }
    requires some { 0 < numbers.lanes }
    requires camera { made.0 ≡ live_camera numbers.seed }
    requires lanes { AreNew numbers.lanes made.1.lanes made.1.reader made.1.parts.items made.1.room.items (vec_capacity made.1.room) }
    ensures table { pass.new.table ≡ pass.old.table }
    ensures hands { SameHands pass.old pass.new }
    ensures ran { RanLanes numbers.mode numbers.lanes (live_camera numbers.seed) (L.address ends.camera) (S.address ends.stream)
        ends.told (told_back L.received L.sent L.faults S.received S.sent S.faults C.told result.0 result.1 result.2)
        numbers.frames numbers.turns result.0.end result.1.end result.2.answer result.2.lines.items pass.old pass.new }
{
    let Ends {
        camera: link,
        stream,
        control,
        camera_clock,
        host_clock,
        app_clock,
    } = ends;
    let peer = link.peer();
    let own = stream.peer();
    let host = Host {
        stream,
        control,
        clock: host_clock,
        client: Client::new(),
    };
    let (camera, lanes) = made;
    let NewLanes {
        lanes,
        reader,
        parts,
        room,
    } = lanes;
    pass.witness();
    let tools = split_lanes(board, pass, parts, room);
    let mine = LanesReader {
        lanes,
        reader,
        tools,
        host,
        camera: peer,
        own,
        turns: numbers.turns,
        mode: numbers.mode,
    };
    let side = CameraSide {
        camera,
        link,
        clock: camera_clock,
    };
    let taker = ApplicationSide {
        clock: app_clock,
        frames: numbers.frames,
        lines: Vec::new(alloc),
    };
    work_with_lanes(rt, alloc, board, pass, gate, side, mine, taker)
}
