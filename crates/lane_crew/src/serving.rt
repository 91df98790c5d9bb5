//! The lanes as threads.

ghost use Rattle.std.specs.Prelude.{◌≡◌, vec_len, vec_capacity};
ghost use Rattle.buffer_words.specs.Boards.{board_id};
ghost use Rattle.lane_crew.specs.Tools.{IsReady, AreReady, IsServed, AreServed};

use crate::lane_running::lane;
use crate::lane_tools::LaneTools;
use board_calls::Mode;
use buffer_words::Board;
use gev_lanes::Lanes;
use gev_links::Gate;
use std::sync::Wait;
use std::thread;
use std::thread::Threads;

// One lane, with what it works on by value.
fn run_lane<R: Wait, G: Gate>(
    rt: &R,
    board: &Board,
    lanes: &Lanes,
    gate: &G,
    tools: LaneTools,
    mode: Mode,
) -> LaneTools
    requires ready { IsReady (board_id board.now) lanes.now tools }
    ensures served { IsServed mode lanes.now tools result }
{
    let LaneTools {
        mut pass,
        mut ends,
        mut acq,
    } = tools;
    lane(rt, board, &mut pass, lanes, &mut ends, &mut acq, gate, mode);
    LaneTools { pass, ends, acq }
}

/// All lanes, each as a thread beside the others.
pub(crate) fn run_lanes<R: Threads + Wait + Sync, G: Gate + Sync>(
    rt: &R,
    board: &Board,
    lanes: &Lanes,
    gate: &G,
    mut tools: Vec<LaneTools>,
    mode: Mode,
) -> Vec<LaneTools>
    requires ready { AreReady (board_id board.now) lanes.now tools.items }
    ensures served { AreServed mode lanes.now tools.items result.items }
    ensures count { vec_len result ≡ vec_len tools }
    ensures capacity { vec_capacity result ≡ vec_capacity tools }
{
    match tools.pop() {
        Some(last) => {
            let (served, mut all) = thread::join(
                rt,
                move || -> LaneTools
                    requires { IsReady (board_id board.now) lanes.now last }
                    ensures { IsServed mode lanes.entry.now last result }
                { run_lane(rt, board, lanes, gate, last, mode) },
                move || -> Vec<LaneTools>
                    requires { AreReady (board_id board.now) lanes.now tools.items }
                    ensures { AreServed mode lanes.entry.now tools.items result.items × (vec_len result ≡ vec_len tools) × (vec_capacity result ≡ vec_capacity tools) }
                { run_lanes(rt, board, lanes, gate, tools, mode) },
            );
            all.push_reserved(served);
            all
        }
        None => tools,
    }
}
