//! A buffer that is announced and queued by one thread, filled by a second one and taken by a third.

ghost use Rattle.std.specs.Prelude.{◌≡◌, [], IfOk, IfErr, Err};
ghost use Rattle.board_machine.specs.Histories.{Run, After};
ghost use Rattle.board_machine.specs.Owners.{IsOwned};
ghost use Rattle.board_machine.specs.Handout.{IsLegal};
ghost use Rattle.board_machine.specs.Laws.{IsAlone};
ghost use Rattle.board_machine.specs.Actors.{born};
ghost use Rattle.buffer_words.specs.Boards.{board_id};
ghost use Rattle.buffer_words.specs.Passes.{IsEmptyHanded, SameHands, own};
ghost use Rattle.buffer_words.specs.Several.{EntersOf};
ghost use Rattle.gentl_events.specs.Shares.{Prepares, Divides, Shares};

use crate::work::work_both;
use buffer_words::{Board, Pass};
use gentl_stream::{ds_announce, ds_queue};
use gentl_types::{BufferId, GcError};
use gev_links::Clock;
use std::alloc::Global;
use std::sync::Wait;
use std::thread::Threads;

/// Announces a buffer of this size, in bytes, and puts it into the input pool.
fn prepare(alloc: Global, board: &Board, pass: &mut Pass, size: u64) -> Result<BufferId, GcError>
    requires table { pass.old.table ≡ board_id board.now }
    ensures entries { EntersOf pass.old (Prepares size result) pass.new }
    ensures hands { SameHands pass.old pass.new }
{
    let id = ds_announce(alloc, board, pass, size)?;
    ds_queue(board, pass, id)?;
    Ok(id)
}

/// Splits two passes off, lets one thread fill and the other one take, and joins both passes.
fn share_work<R: Threads + Wait + Sync, C: Clock + Send + Drop>(
    rt: &R,
    board: &Board,
    pass: &mut Pass,
    clock: C,
    timeout: u64,
)
    requires table { pass.old.table ≡ board_id board.now }
    requires first { pass.old.number ≡ 0 }
    requires childless { born (own pass.old) ≡ [] }
    ensures table { pass.new.table ≡ pass.old.table }
    ensures alone { IsAlone (After pass.new.seen) 0 }
    ensures divides { Divides pass.old.seen pass.new.seen }
    ensures hands { SameHands pass.old pass.new }
{
    pass.witness();
    let filler = board.split(pass);
    let taker = board.split(pass);
    let worked = work_both(rt, board, filler, taker, clock, timeout);
    board.join(pass, worked.0);
    board.join(pass, worked.1);
    pass.witness();
}

/// The first pass of a new board announces and queues a buffer of this size, 1 to 67,108,864 bytes, and
/// splits two passes off. One thread claims and fills what it finds, and the other one takes buffers and
/// returns them, until none came within `timeout` milliseconds of this clock. Then both passes are joined.
///
/// Its contract follows from those of the public calls alone: in all that was seen each place had one owner
/// and buffers were handed out in the order of their fills, the pass is alone again, and each claim and fill
/// is the one worker's and each take the other's.
pub fn share_board<R: Threads + Wait + Sync, C: Clock + Send + Drop>(
    rt: &R,
    alloc: Global,
    board: &Board,
    pass: &mut Pass,
    clock: C,
    size: u64,
    timeout: u64,
) -> Result<BufferId, GcError>
    requires table { pass.old.table ≡ board_id board.now }
    requires first { pass.old.number ≡ 0 }
    requires unseen { pass.old.seen ≡ [] }
    requires empty { IsEmptyHanded pass.old }
    ensures table { pass.new.table ≡ pass.old.table }
    ensures run { Run pass.new.seen }
    ensures owned { IsOwned (After pass.new.seen) }
    ensures legal { IsLegal pass.new.seen }
    ensures alone { IsAlone (After pass.new.seen) 0 }
    ensures refused { IfErr result (λ error. EntersOf pass.old (Prepares size (Err error)) pass.new) }
    ensures shares { IfOk result (λ id. Shares size id pass.new.seen) }
    ensures empty { IsEmptyHanded pass.new }
{
    match prepare(alloc, board, pass, size) {
        Ok(id) => {
            share_work(rt, board, pass, clock, timeout);
            pass.witness();
            Ok(id)
        }
        Err(error) => {
            pass.witness();
            Err(error)
        }
    }
}
