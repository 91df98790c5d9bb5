//! Buffers are announced and queued, and the acquisition is started, before the workers begin.

ghost use Rattle.std.specs.Prelude.{◌≡◌, ◌≤◌, [], OnOk, OnErr};
ghost use Rattle.gev_types.specs.Limits.{place_count};
ghost use Rattle.board_machine.specs.Histories.{After};
ghost use Rattle.board_machine.specs.Actors.{born};
ghost use Rattle.board_machine.specs.Laws.{IsAlone};
ghost use Rattle.board_calls.specs.Calls.{IsSize};
ghost use Rattle.buffer_words.specs.Boards.{board_id};
ghost use Rattle.buffer_words.specs.Passes.{SameHands, own};
ghost use Rattle.buffer_words.specs.Several.{EntersOf};
ghost use Rattle.live_crew.specs.Prepared.{PreparesBuffer, Prepares, FallsShort, SawOnly, HasPrepared, LacksMemory};

use buffer_words::{Board, Pass};
use gentl_stream::{ds_announce, ds_queue, ds_start};
use gentl_types::{BufferId, GcError};
use gev_types::NoMemory;
use std::alloc::Global;

/// Announces a buffer of this size, in bytes, and puts it into the input pool.
fn prepare_buffer(
    alloc: Global,
    board: &Board,
    pass: &mut Pass,
    size: u64,
) -> Result<BufferId, GcError>
    requires table { pass.old.table ≡ board_id board.now }
    ensures entries { EntersOf pass.old (PreparesBuffer size result) pass.new }
    ensures hands { SameHands pass.old pass.new }
{
    let id = ds_announce(alloc, board, pass, size)?;
    ds_queue(board, pass, id)?;
    Ok(id)
}

/// Announces and queues so many buffers on an empty board.
fn prepare_buffers(
    alloc: Global,
    board: &Board,
    pass: &mut Pass,
    size: u64,
    buffers: u8,
) -> Result<(), NoMemory>
    requires table { pass.old.table ≡ board_id board.now }
    requires first { pass.old.number ≡ 0 }
    requires unseen { pass.old.seen ≡ [] }
    requires size { IsSize size }
    requires few { buffers ≤ place_count }
    ensures prepared { OnOk result (HasPrepared size buffers pass.old pass.new) }
    ensures short { OnErr result (LacksMemory size buffers pass.old pass.new) }
    ensures hands { SameHands pass.old pass.new }
{
    'buffers: for _buffer in 0..buffers {
        match prepare_buffer(alloc, board, pass, size) {
            Ok(_id) => {}
            Err(_error) => return Err(NoMemory),
        }
    }
    Ok(())
}

/// Announces and queues so many buffers of this size, in bytes, on an empty board, and starts the
/// acquisition. `NoMemory` where a buffer wanted memory: nothing is started then.
pub fn prepare(
    alloc: Global,
    board: &Board,
    pass: &mut Pass,
    size: u64,
    buffers: u8,
) -> Result<(), NoMemory>
    requires table { pass.old.table ≡ board_id board.now }
    requires first { pass.old.number ≡ 0 }
    requires unseen { pass.old.seen ≡ [] }
    requires size { IsSize size }
    requires few { buffers ≤ place_count }
    ensures prepares { OnOk result (SawOnly (Prepares size buffers) pass.new) }
    ensures short { OnErr result (SawOnly (FallsShort size buffers) pass.new) }
    ensures table { pass.new.table ≡ pass.old.table }
    ensures first { pass.new.number ≡ 0 }
    ensures alone { IsAlone (After pass.new.seen) 0 }
    ensures childless { born (own pass.new) ≡ [] }
    ensures hands { SameHands pass.old pass.new }
{
    match prepare_buffers(alloc, board, pass, size, buffers) {
        Ok(()) => match ds_start(board, pass) {
            Ok(()) => Ok(()),
            Err(_refusal) => Err(NoMemory),
        },
        Err(error) => Err(error),
    }
}
