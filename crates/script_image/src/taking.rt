//! The `take` line, whose report isn't made.

ghost use Rattle.std.specs.Prelude.{◌≡◌};
ghost use Rattle.script_replay.specs.Boards.{IsReady};
ghost use Rattle.script_replay.specs.Replays.{IsReplaying};
ghost use Rattle.script_image.specs.Found.{TakesFirst, RunsTakeOn, RunsTake};

use board_model::PlainBoard;
use script_replay::{CALLER, Running, Script, note_start};

/// Takes the first buffer of the output, and gives it to the application. The answer is its place, if there was one.
fn take_first(board: &mut PlainBoard) -> Option<u8>
    requires ready { IsReady board.old }
    ensures takes { TakesFirst result board.old board.new }
{
    board.owned();
    match board.event_get(CALLER, 0) {
        Ok(place) => {
            board.ds_return(CALLER, place);
            Some(place)
        }
        Err(_error) => None,
    }
}

/// The same, where the event of the stream is open.
fn take_open(running: &mut Running) -> Option<u8>
    requires keeps { IsReplaying running.old }
    ensures runs { RunsTakeOn result running.old running.new }
{
    match running.tree.child(Some(running.stream), 0) {
        None => None,
        Some(_event) => match take_first(&mut running.board) {
            None => None,
            Some(place) => {
                running.taken = running.taken.saturating_add(1);
                Some(place)
            }
        },
    }
}

/// Takes a buffer, where the event of the stream is open. The answer is its place, if there was one.
pub(crate) fn take(script: &mut Script) -> Option<u8>
    requires keeps { IsReplaying script.old.running }
    ensures runs { RunsTake result script.old script.new }
{
    let before = script.running.board.run();
    let got = take_open(&mut script.running);
    let after = script.running.board.run();
    note_start(&mut script.widening, before, after);
    got
}
