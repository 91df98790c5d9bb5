//! All lanes: how they are made, and how a lane meets the reader.

ghost use Rattle.std.specs.Prelude.{◌≡◌, ◌+◌, ◌<◌, [], length, IfOk, vec_len, vec_capacity};
ghost use Rattle.gev_lanes.specs.Sides.{IsReaderOf, IsLaneOf, AreReadersOf, IsLaneAt, AreNew, Met, MetAt};

use crate::ends::{LaneEnds, Lanes, ReaderEnds};
use crate::making::new_lane;
use crate::parts::{LaneHands, LaneQueues, ReaderLane};
use gev_types::NoMemory;
use std::alloc::{AllocError, Global};

// A lane's ends meet the reader's.
fn meet_one(queues: &LaneQueues, side: &mut ReaderLane, hands: LaneHands)
    requires side { IsReaderOf queues.now side.old }
    requires lane { IsLaneOf queues.now hands }
    ensures same { side.new ≡ side.old }
    ensures met { Met side.new hands }
{
    let LaneHands {
        free,
        cells,
        requests,
    } = hands;
    queues.free.meet_giver(&mut side.free, free);
    queues.cells.meet_taker(&mut side.cells, cells);
    queues.requests.meet_giver(&mut side.requests, requests);
}

// The same with the lane's number.
fn meet_lane(queues: &[LaneQueues], sides: &mut [ReaderLane], number: u8, hands: LaneHands)
    requires sides { AreReadersOf queues.now sides.old }
    requires lane { IsLaneAt queues.now (record { number = number; hands = hands }) }
    ensures same { sides.new ≡ sides.old }
    ensures met { MetAt sides.new (record { number = number; hands = hands }) }
{
    let at = usize::from(number);
    meet_one(&queues[at], &mut sides[at], hands);
}

// Makes room for one more of each.
fn make_room(
    queues: &mut Vec<LaneQueues>,
    sides: &mut Vec<ReaderLane>,
    ends: &mut Vec<LaneEnds>,
) -> Result<(), AllocError>
    ensures queues { queues.new.items ≡ queues.old.items }
    ensures sides { sides.new.items ≡ sides.old.items }
    ensures ends { ends.new.items ≡ ends.old.items }
    ensures room { IfOk result (λ _. vec_len queues.new < vec_capacity queues.new) }
    ensures more { IfOk result (λ _. vec_len sides.new < vec_capacity sides.new) }
    ensures most { IfOk result (λ _. vec_len ends.new < vec_capacity ends.new) }
{
    queues.reserve(1)?;
    sides.reserve(1)?;
    ends.reserve(1)
}

// Adds one new lane with the next number.
fn add_lane(
    alloc: Global,
    number: u8,
    queues: &mut Vec<LaneQueues>,
    sides: &mut Vec<ReaderLane>,
    ends: &mut Vec<LaneEnds>,
) -> Result<(), NoMemory>
    requires number { length queues.old.items ≡ number }
    requires new { AreNew 0 queues.old.items sides.old.items ends.old.items }
    ensures count { IfOk result (λ _. length queues.new.items ≡ number + 1) }
    ensures new { IfOk result (λ _. AreNew 0 queues.new.items sides.new.items ends.new.items) }
{
    make_room(queues, sides, ends)?;
    let (lane_queues, side, lane_ends) = new_lane(alloc, number)?;
    queues.push_reserved(lane_queues);
    sides.push_reserved(side);
    ends.push_reserved(lane_ends);
    Ok(())
}

// Adds so many new lanes to none.
fn add_lanes(
    alloc: Global,
    lanes: u8,
    queues: &mut Vec<LaneQueues>,
    sides: &mut Vec<ReaderLane>,
    ends: &mut Vec<LaneEnds>,
) -> Result<(), NoMemory>
    requires queues { queues.old.items ≡ [] }
    requires sides { sides.old.items ≡ [] }
    requires ends { ends.old.items ≡ [] }
    ensures count { IfOk result (λ _. length queues.new.items ≡ lanes) }
    ensures new { IfOk result (λ _. AreNew 0 queues.new.items sides.new.items ends.new.items) }
{
    'lanes: for number in 0..lanes {
        add_lane(alloc, number, queues, sides, ends)?;
    }
    Ok(())
}

impl Lanes {
    ghost use Rattle.std.specs.Prelude.{◌≡◌, length, IfOk};
    ghost use Rattle.gev_lanes.specs.Sides.{AreReadersOf, IsLaneAt, AreLanesOf, AreNew, MetAt};

    /// So many new lanes, with the reader's ends of their queues and each lane's.
    pub fn new(alloc: Global, lanes: u8) -> Result<(Lanes, ReaderEnds, Vec<LaneEnds>), NoMemory>
        ensures count { IfOk result (λ made. length made.0 ≡ lanes) }
        ensures new { IfOk result (λ made. AreNew 0 made.0 made.1 made.2.items) }
        ensures readers { IfOk result (λ made. AreReadersOf made.0 made.1) }
        ensures lanes { IfOk result (λ made. AreLanesOf made.0 made.2.items) }
    {
        let mut queues = Vec::new(alloc);
        let mut sides = Vec::new(alloc);
        let mut ends = Vec::new(alloc);
        add_lanes(alloc, lanes, &mut queues, &mut sides, &mut ends)?;
        Ok((
            Lanes { queues },
            ReaderEnds {
                lanes: sides,
                shed: 0,
            },
            ends,
        ))
    }

    /// A lane that has ended meets the reader: of each of its queues, what the one side took is the front of what
    /// the other side gave. The ends were made with these lanes.
    pub fn meet(&self, reader: &mut ReaderEnds, lane: LaneEnds)
        requires reader { AreReadersOf self.now reader.old }
        requires lane { IsLaneAt self.now lane }
        ensures same { reader.new ≡ reader.old }
        ensures met { MetAt reader.new lane }
    {
        let LaneEnds { number, hands } = lane;
        meet_lane(
            self.queues.as_slice(),
            reader.lanes.as_mut_slice(),
            number,
            hands,
        );
    }
}
