//! The `step` line: one step of the board, and its report.

ghost use Rattle.std.specs.Prelude.{◌≡◌, ◌≤◌, ◌<◌, [], IfOk, unwrap_or};
ghost use Rattle.gev_types.specs.Limits.{place_count};
ghost use Rattle.script_trace.specs.StepLines.{StepLine, StepBy};
ghost use Rattle.script_replay.specs.Boards.{IsReady, Acts};
ghost use Rattle.script_replay.specs.Acquiring.{KeepsLifted, StepsBoard};
ghost use Rattle.script_replay.specs.Steps.{word_of};

use crate::steps::{claim, close, fill, grab, lay, pool, sweep_out, sweep_pool, take};
use board_model::PlainBoard;
use gev_report::{StepText, line_step};
use gev_script::Act;
use gev_types::NoMemory;
use std::alloc::Global;

/// The act's word in a line.
fn word_of(act: Act) -> &'static str
    ensures { result.now ≡ word_of act }
{
    match act {
        Act::Grab => "grab",
        Act::Lay => "lay",
        Act::Pool => "pool",
        Act::Fill => "fill",
        Act::Claim => "claim",
        Act::Take => "take",
        Act::SweepPool => "sweep-pool",
        Act::SweepOut => "sweep-out",
        Act::Close => "close",
    }
}

/// Makes a step of the board. The answer is what its line tells, and how many buffers were taken: 1 or 0.
fn make_step(board: &mut PlainBoard, actor: u8, act: Act, place: u8) -> (StepText, u64)
    requires ready { IsReady board.old }
    requires actor { actor ≤ 4 }
    requires in_range { place < place_count }
    ensures { StepsBoard (λ t. StepBy t actor act place) actor result.1 act result.0 board.old board.new }
{
    match act {
        Act::Grab => (grab(board, actor, place), 0),
        Act::Lay => (lay(board, actor, place), 0),
        Act::Pool => (pool(board, actor, place), 0),
        Act::Fill => (fill(board, actor, place), 0),
        Act::Claim => (claim(board, actor), 0),
        Act::Take => take(board, actor),
        Act::SweepPool => (sweep_pool(board, actor), 0),
        Act::SweepOut => (sweep_out(board, actor), 0),
        Act::Close => (close(board, actor), 0),
    }
}

/// Makes the step, and tells it. The answer is how many buffers were taken: 1 or 0. An act that names no
/// place reads none.
pub(crate) fn step(
    alloc: Global,
    board: &mut PlainBoard,
    actor: u8,
    act: Act,
    place: Option<u8>,
    out: &mut Vec<u8>,
) -> Result<u64, NoMemory>
    requires ready { IsReady board.old }
    requires actor { actor ≤ 4 }
    requires in_range { unwrap_or place 0 < place_count }
    requires empty { out.old.items ≡ [] }
    ensures acts { IfOk result (λ count. Acts (λ t. StepLine t actor act place) actor count board.old out.new.items board.new) }
    ensures ready { IsReady board.new }
    ensures lifted { KeepsLifted board.old board.new }
{
    let (text, taken) = make_step(board, actor, act, place.unwrap_or(0));
    line_step(alloc, actor, word_of(act), text, out)?;
    Ok(taken)
}
