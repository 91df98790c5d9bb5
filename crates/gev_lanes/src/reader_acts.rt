//! What the reader does at one lane's queues.

ghost use Rattle.std.specs.Prelude.{◌≡◌, ◌≤◌, [], ◌∷◌, length, true, nat_lt, Some, IsSome, IfSome, IfNone};
ghost use Rattle.gev_lanes.specs.LineEnds.{gave, took};
ghost use Rattle.gev_lanes.specs.Sides.{IsReaderOf};
ghost use Rattle.gev_lanes.specs.Messages.{heard, told};
ghost use Rattle.gev_lanes.specs.Acts.{Brings, Tries, Hears, Ticks, Ends as BringsEnd, Asked};

use crate::parts::{LaneQueues, ReaderLane};
use crate::saying::{ending, ticking, with_datagram};
use std::sync::Wait;

// Of how many free cells the reader says that few are left: it rests until more are.
const FEW: usize = 8;

// How often it rests for a tenth of a millisecond at most, before it looks for a free cell: with what the system adds to
// a rest no more than 2 ms.
const RESTS: u32 = 12;

/// Brings a datagram to the lane: whether a free cell was there. Where few are left the reader rests first, while the
/// lane serves.
pub(crate) fn bring_one<R: Wait>(
    rt: &R,
    queues: &LaneQueues,
    side: &mut ReaderLane,
    moment: u64,
    datagram: &[u8],
) -> bool
    requires side { IsReaderOf queues.now side.old }
    requires size { length datagram.now ≤ 9000 }
    ensures tries { Tries (record { moment = moment; says = heard datagram.now }) result side.old side.new }
{
    let _rests = queues.free.rest_while_few(rt, &mut side.free, FEW, RESTS);
    match queues.free.take(rt, &mut side.free) {
        Some(free) => {
            let cell = with_datagram(free, moment, datagram);
            queues.cells.give_waiting(rt, &mut side.cells, cell);
            side.last = moment;
            true
        }
        None => false,
    }
}

// Brings the moment alone: whether a free cell was there. A lane that sleeps sees it when it looks by itself.
fn bring_moment<R: Wait>(rt: &R, queues: &LaneQueues, side: &mut ReaderLane, moment: u64) -> bool
    requires side { IsReaderOf queues.now side.old }
    ensures tries { Tries (record { moment = moment; says = told }) result side.old side.new }
{
    match queues.free.take(rt, &mut side.free) {
        Some(free) => {
            let cell = ticking(free, moment);
            queues.cells.give_quietly(rt, &mut side.cells, cell);
            side.last = moment;
            true
        }
        None => false,
    }
}

/// Brings the moment, where the lane's last cell had a lower one.
pub(crate) fn tick_one<R: Wait>(rt: &R, queues: &LaneQueues, side: &mut ReaderLane, moment: u64)
    requires side { IsReaderOf queues.now side.old }
    ensures ticks { Ticks moment side.old side.new }
{
    if side.last < moment {
        bring_moment(rt, queues, side, moment);
    }
}

/// Brings the end in the cell that is kept for it, and waits for none.
pub(crate) fn end_one<R: Wait>(rt: &R, queues: &LaneQueues, side: &mut ReaderLane, moment: u64)
    requires side { IsReaderOf queues.now side.old }
    requires kept { IsSome side.old.kept }
    ensures ends { BringsEnd moment side.old side.new }
{
    let cell = ending(side.kept.take().unwrap(), moment);
    queues.cells.give_waiting(rt, &mut side.cells, cell);
    side.last = moment;
}

/// Takes the oldest request of the lane, where there is one.
pub(crate) fn ask_one<R: Wait>(
    rt: &R,
    queues: &LaneQueues,
    side: &mut ReaderLane,
) -> Option<[u8; 28]>
    requires side { IsReaderOf queues.now side.old }
    ensures asked { Asked result side.old side.new }
{
    queues.requests.take(rt, &mut side.requests)
}
