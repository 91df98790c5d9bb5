//! What the reader does at one of its lanes, by the lane's number from 0 on.

ghost use Rattle.std.specs.Prelude.{◌≡◌, ◌<◌, ◌≤◌, length};
ghost use Rattle.gev_lanes.specs.Sides.{AreReadersOf, KeptAt};
ghost use Rattle.gev_lanes.specs.Messages.{heard};
ghost use Rattle.gev_lanes.specs.Acts.{Tries, Ticks, Ends as BringsEnd, Asked, DoesAt};

use crate::ends::{Lanes, ReaderEnds};
use crate::parts::{LaneQueues, ReaderLane};
use crate::reader_acts::{ask_one, bring_one, end_one, tick_one};
use std::sync::Wait;

fn bring_at<R: Wait>(
    rt: &R,
    queues: &[LaneQueues],
    sides: &mut [ReaderLane],
    lane: usize,
    moment: u64,
    datagram: &[u8],
) -> bool
    requires sides { AreReadersOf queues.now sides.old }
    requires lane { lane < length queues.now }
    requires size { length datagram.now ≤ 9000 }
    ensures sides { AreReadersOf queues.now sides.new }
    ensures brings { DoesAt (Tries (record { moment = moment; says = heard datagram.now }) result) lane sides.old sides.new }
{
    bring_one(rt, &queues[lane], &mut sides[lane], moment, datagram)
}

fn tick_at<R: Wait>(
    rt: &R,
    queues: &[LaneQueues],
    sides: &mut [ReaderLane],
    lane: usize,
    moment: u64,
)
    requires sides { AreReadersOf queues.now sides.old }
    requires lane { lane < length queues.now }
    ensures sides { AreReadersOf queues.now sides.new }
    ensures ticks { DoesAt (Ticks moment) lane sides.old sides.new }
{
    tick_one(rt, &queues[lane], &mut sides[lane], moment)
}

fn end_at<R: Wait>(
    rt: &R,
    queues: &[LaneQueues],
    sides: &mut [ReaderLane],
    lane: usize,
    moment: u64,
)
    requires sides { AreReadersOf queues.now sides.old }
    requires lane { lane < length queues.now }
    requires kept { KeptAt lane sides.old }
    ensures sides { AreReadersOf queues.now sides.new }
    ensures ends { DoesAt (BringsEnd moment) lane sides.old sides.new }
{
    end_one(rt, &queues[lane], &mut sides[lane], moment)
}

fn ask_at<R: Wait>(
    rt: &R,
    queues: &[LaneQueues],
    sides: &mut [ReaderLane],
    lane: usize,
) -> Option<[u8; 28]>
    requires sides { AreReadersOf queues.now sides.old }
    requires lane { lane < length queues.now }
    ensures sides { AreReadersOf queues.now sides.new }
    ensures asked { DoesAt (Asked result) lane sides.old sides.new }
{
    ask_one(rt, &queues[lane], &mut sides[lane])
}

impl ReaderEnds {
    /// How many datagrams were brought to no lane, since none of its cells was free.
    pub fn shed(&self) -> u64 {
        self.shed
    }
}

impl Lanes {
    ghost use Rattle.std.specs.Prelude.{◌≡◌, ◌<◌, ◌≤◌, length};
    ghost use Rattle.gev_lanes.specs.Sides.{AreReadersOf, KeptAt};
    ghost use Rattle.gev_lanes.specs.Messages.{heard};
    ghost use Rattle.gev_lanes.specs.Acts.{Tries, Ticks, Ends as BringsEnd, Asked, DoesAt};

    /// How many lanes there are.
    pub fn count(&self) -> usize
        ensures count { result ≡ length self.now }
    {
        self.queues.len()
    }

    /// Brings a datagram of at most 9000 bytes to a lane, with its moment in milliseconds: whether a free cell
    /// was there.
    pub fn bring<R: Wait>(
        &self,
        rt: &R,
        reader: &mut ReaderEnds,
        lane: usize,
        moment: u64,
        datagram: &[u8],
    ) -> bool
        requires reader { AreReadersOf self.now reader.old }
        requires lane { lane < length self.now }
        requires size { length datagram.now ≤ 9000 }
        ensures reader { AreReadersOf self.now reader.new }
        ensures brings { DoesAt (Tries (record { moment = moment; says = heard datagram.now }) result) lane reader.old reader.new }
    {
        let brought = bring_at(
            rt,
            self.queues.as_slice(),
            reader.lanes.as_mut_slice(),
            lane,
            moment,
            datagram,
        );
        reader.shed = reader.shed.saturating_add(u64::from(!brought));
        brought
    }

    /// Brings a moment, in milliseconds, to a lane whose last cell had a lower one, where a free cell is there.
    pub fn tick<R: Wait>(&self, rt: &R, reader: &mut ReaderEnds, lane: usize, moment: u64)
        requires reader { AreReadersOf self.now reader.old }
        requires lane { lane < length self.now }
        ensures reader { AreReadersOf self.now reader.new }
        ensures ticks { DoesAt (Ticks moment) lane reader.old reader.new }
    {
        tick_at(
            rt,
            self.queues.as_slice(),
            reader.lanes.as_mut_slice(),
            lane,
            moment,
        )
    }

    /// Brings the end to a lane, in the cell that was kept for it: it waits for no free cell, so it needs no lane that
    /// serves.
    pub fn end<R: Wait>(&self, rt: &R, reader: &mut ReaderEnds, lane: usize, moment: u64)
        requires reader { AreReadersOf self.now reader.old }
        requires lane { lane < length self.now }
        requires kept { KeptAt lane reader.old }
        ensures reader { AreReadersOf self.now reader.new }
        ensures ends { DoesAt (BringsEnd moment) lane reader.old reader.new }
    {
        end_at(
            rt,
            self.queues.as_slice(),
            reader.lanes.as_mut_slice(),
            lane,
            moment,
        )
    }

    /// Takes a lane's oldest request; None where there is none.
    pub fn ask<R: Wait>(&self, rt: &R, reader: &mut ReaderEnds, lane: usize) -> Option<[u8; 28]>
        requires reader { AreReadersOf self.now reader.old }
        requires lane { lane < length self.now }
        ensures reader { AreReadersOf self.now reader.new }
        ensures asked { DoesAt (Asked result) lane reader.old reader.new }
    {
        ask_at(
            rt,
            self.queues.as_slice(),
            reader.lanes.as_mut_slice(),
            lane,
        )
    }
}
