//! Flushes.

ghost use Rattle.std.specs.Prelude.{◌≡◌};
ghost use Rattle.board_calls.specs.Calls.{DiscardsOutput, DiscardsAll, FlushesToInput, Flushes};
ghost use Rattle.buffer_words.specs.Boards.{board_id};
ghost use Rattle.buffer_words.specs.Passes.{SameHands};
ghost use Rattle.buffer_words.specs.Several.{EntersOf};
ghost use Rattle.gentl_stream.specs.Emptied.{EmptiesPool};

use crate::empty::flush_to_output;
use crate::places::{lay_each, pool_each, pool_held};
use buffer_words::{Board, Pass};
use gentl_types::GcError;
use std::sync::Wait;

/// Sweeps the output and lays it: OUTPUT_DISCARD, and the flush of the event of new buffers.
pub fn discard_output(board: &Board, pass: &mut Pass)
    requires table { pass.old.table ≡ board_id board.now }
    ensures entries { EntersOf pass.old DiscardsOutput pass.new }
    ensures hands { SameHands pass.old pass.new }
{
    let output = output_queue::sweep(board, pass);
    lay_each(board, pass, output.as_slice());
}

/// Sweeps pool and output and lays them, the pool's places first.
fn discard_all(board: &Board, pass: &mut Pass)
    requires table { pass.old.table ≡ board_id board.now }
    ensures entries { EntersOf pass.old DiscardsAll pass.new }
    ensures hands { SameHands pass.old pass.new }
{
    let pooled = input_pool::sweep(board, pass);
    let output = output_queue::sweep(board, pass);
    lay_each(board, pass, pooled.as_slice());
    lay_each(board, pass, output.as_slice());
}

/// Sweeps the output and pools it, then pools each buffer that the application has.
fn flush_to_input(board: &Board, pass: &mut Pass)
    requires table { pass.old.table ≡ board_id board.now }
    ensures entries { EntersOf pass.old FlushesToInput pass.new }
    ensures hands { SameHands pass.old pass.new }
{
    let output = output_queue::sweep(board, pass);
    pool_each(board, pass, output.as_slice());
    pool_held(board, pass);
}

/// DSFlushQueue, with operation 0 INPUT_TO_OUTPUT, 1 OUTPUT_DISCARD, 2 ALL_TO_INPUT, 3
/// UNQUEUED_TO_INPUT or 4 ALL_DISCARD. A buffer in another pass's hands stays there.
pub fn ds_flush<R: Wait>(
    rt: &R,
    board: &Board,
    pass: &mut Pass,
    operation: u32,
) -> Result<(), GcError>
    requires table { pass.old.table ≡ board_id board.now }
    ensures entries { EntersOf pass.old (Flushes operation result) pass.new }
    ensures fills { operation ≡ 0 → EmptiesPool pass.old pass.new }
    ensures hands { SameHands pass.old pass.new }
{
    match operation {
        0 => {
            flush_to_output(rt, board, pass);
            Ok(())
        }
        1 => {
            discard_output(board, pass);
            Ok(())
        }
        2 => {
            flush_to_input(board, pass);
            Ok(())
        }
        3 => {
            pool_held(board, pass);
            Ok(())
        }
        4 => {
            discard_all(board, pass);
            Ok(())
        }
        _ => Err(GcError::InvalidParameter(u64::from(operation))),
    }
}
