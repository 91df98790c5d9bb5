//! Each lane gets a pass.

ghost use Rattle.std.specs.Prelude.{◌≡◌, ◌≤◌, [], vec_len, vec_capacity};
ghost use Rattle.buffer_words.specs.Boards.{board_id};
ghost use Rattle.buffer_words.specs.Passes.{SameHands};
ghost use Rattle.gev_live.specs.LanesMade.{AreSplit};

use acq_core::Acq;
use buffer_words::{Board, Pass};
use gev_lanes::LaneEnds;
use lane_crew::LaneTools;

/// Splits a pass off for each lane, in their order. The room is empty and large enough.
pub(crate) fn split_lanes(
    board: &Board,
    pass: &mut Pass,
    mut parts: Vec<(LaneEnds, Acq)>,
    room: Vec<LaneTools>,
) -> Vec<LaneTools>
    requires table { pass.old.table ≡ board_id board.now }
    requires empty { room.items ≡ [] }
    requires room { vec_len parts ≤ vec_capacity room }
    ensures split { AreSplit (board_id board.now) parts.items pass.old result.items pass.new }
    ensures count { vec_len result ≡ vec_len parts }
    ensures capacity { vec_capacity result ≡ vec_capacity room }
    ensures table { pass.new.table ≡ pass.old.table }
    ensures hands { SameHands pass.old pass.new }
{
    match parts.pop() {
        Some(last) => {
            let mut tools = split_lanes(board, pass, parts, room);
            let lane_pass = board.split(pass);
            tools.push_reserved(LaneTools {
                pass: lane_pass,
                ends: last.0,
                acq: last.1,
            });
            tools
        }
        None => room,
    }
}
