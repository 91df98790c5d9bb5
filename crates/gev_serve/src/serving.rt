//! All turns of the camera's worker.

ghost use Rattle.std.specs.Prelude.{◌≡◌, ◌+◌, ◌-◌, ◌^◌, ◌<◌, ◌≤◌, length};
ghost use Rattle.buffer_words.specs.Boards.{board_id};
ghost use Rattle.gev_serve.specs.Wires.{wire};
ghost use Rattle.gev_serve.specs.Serving.{MakesTurn, ServesTo, KeepsHands};

use crate::ends::{ServeEnd, ServeTurn};
use crate::rooms::Rooms;
use crate::turns::serve_once;
use buffer_words::{Board, Pass};
use camera_sim::Camera;
use gev_links::{Clock, Link};
use std::alloc::Global;

/// The room of a receive, in bytes.
pub const RECEIVE_ROOM: usize = 9000;

/// Receives once, reads the clock once, and makes the camera's turn with what came.
pub fn make_turn<L: Link, C: Clock>(
    alloc: Global,
    camera: &mut Camera,
    link: &mut L,
    clock: &mut C,
    room: &mut [u8; RECEIVE_ROOM],
    rooms: &mut Rooms,
) -> ServeTurn
    requires { camera.old.shelf.count < 2 ^ 64 - 1 }
    ensures makes { MakesTurn result camera.old camera.new
        (wire (L.received link.old) (L.sent link.old) (L.faults link.old)) (wire (L.received link.new) (L.sent link.new) (L.faults link.new))
        (C.told clock.old) (C.told clock.new) }
{
    match link.recv(room) {
        Ok(came) => {
            let moment = clock.now();
            serve_once(alloc, camera, link, came, room, moment, rooms)
        }
        Err(_failed) => ServeTurn::Fault,
    }
}

/// The camera's worker of a live run. In each turn it looks at the run word, and ends where that isn't 1;
/// receives once and reads the clock once; and makes the camera's turn with what came. It ends too where a
/// call of the link failed, where there was no memory for a frame, and after so many turns.
pub fn serve<L: Link, C: Clock>(
    alloc: Global,
    board: &Board,
    pass: &mut Pass,
    camera: &mut Camera,
    link: &mut L,
    clock: &mut C,
    turns: u64,
) -> ServeEnd
    requires table { pass.old.table ≡ board_id board.now }
    requires count { camera.old.shelf.count + turns ≤ 2 ^ 64 - 1 }
    ensures serves { ServesTo result camera.old camera.new
        (wire (L.received link.old) (L.sent link.old) (L.faults link.old)) (wire (L.received link.new) (L.sent link.new) (L.faults link.new))
        (C.told clock.old) (C.told clock.new) pass.old pass.new turns }
    ensures hands { KeepsHands pass.old pass.new }
{
    let mut room = [0; RECEIVE_ROOM];
    let mut rooms = Rooms::new();
    for _turn in 0..turns {
        let run = board.look_run(pass);
        if run != 1 {
            return ServeEnd::Stopped;
        }
        match make_turn(alloc, camera, link, clock, &mut room, &mut rooms) {
            ServeTurn::GoesOn(_block) => {}
            ServeTurn::Fault => return ServeEnd::Fault,
            ServeTurn::NoMemory => return ServeEnd::NoMemory,
        }
    }
    ServeEnd::Spent
}
