//! What a lane does at its ends of its queues.

ghost use Rattle.std.specs.Prelude.{◌≡◌, slice_get, Some, IsSome};
ghost use Rattle.gev_lanes.specs.Acts.{Puts};

use crate::cell::Cell;
use crate::ends::{LaneEnds, Lanes};
use crate::line::Line;
use crate::line_ends::Giver;
use crate::parts::LaneQueues;
use std::sync::Wait;

// The queues of the lane with this number.
fn queues_at(queues: &[LaneQueues], number: u8) -> &LaneQueues
    requires { IsSome (slice_get queues.now number) }
    ensures { slice_get queues.now number ≡ Some result.now }
{
    &queues[usize::from(number)]
}

// Gives a request, unless the queue is full.
fn put_one<R: Wait>(rt: &R, line: &Line<[u8; 28]>, giver: &mut Giver<[u8; 28]>, request: [u8; 28])
    requires line { giver.old.line ≡ line.now.table }
    requires room { line.now.capacity ≡ 64 }
    ensures puts { Puts request giver.old giver.new }
{
    match line.give(rt, giver, request) {
        Ok(()) => {}
        Err(_full) => {}
    }
}

impl Lanes {
    ghost use Rattle.std.specs.Prelude.{◌≡◌};
    ghost use Rattle.gev_lanes.specs.Sides.{IsLaneAt};
    ghost use Rattle.gev_lanes.specs.Acts.{with_taken, with_freed, PutsOne};

    /// Takes the lane's next cell, and waits until there is one.
    pub fn next_cell<R: Wait>(&self, rt: &R, lane: &mut LaneEnds) -> Cell
        requires lane { IsLaneAt self.now lane.old }
        ensures lane { IsLaneAt self.now lane.new }
        ensures taken { lane.new ≡ with_taken lane.old result }
    {
        let queues = queues_at(self.queues.as_slice(), lane.number);
        queues.cells.take_waiting(rt, &mut lane.hands.cells)
    }

    /// Gives a cell back to the free cells.
    pub fn free_cell<R: Wait>(&self, rt: &R, lane: &mut LaneEnds, cell: Cell)
        requires lane { IsLaneAt self.now lane.old }
        ensures lane { IsLaneAt self.now lane.new }
        ensures freed { lane.new ≡ with_freed lane.old cell }
    {
        let queues = queues_at(self.queues.as_slice(), lane.number);
        queues.free.give_waiting(rt, &mut lane.hands.free, cell);
    }

    /// Gives a request to the reader. It's left out where 64 wait.
    pub fn put_request<R: Wait>(&self, rt: &R, lane: &mut LaneEnds, request: [u8; 28])
        requires lane { IsLaneAt self.now lane.old }
        ensures lane { IsLaneAt self.now lane.new }
        ensures puts { PutsOne request lane.old lane.new }
    {
        let queues = queues_at(self.queues.as_slice(), lane.number);
        put_one(rt, &queues.requests, &mut lane.hands.requests, request);
    }
}
