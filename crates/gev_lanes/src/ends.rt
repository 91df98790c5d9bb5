//! The lanes, and the ends of their queues.

use crate::parts::{LaneHands, LaneQueues, ReaderLane};
use std::marker::Model;

/// The queues of all lanes. Threads share them.
#[derive(Drop)]
pub struct Lanes {
    pub(crate) queues: Vec<LaneQueues>,
}

impl Model for Lanes {
    ghost use Rattle.std.specs.Prelude.{List};
    ghost use Rattle.gev_lanes.specs.declared.parts.LaneQueues.{LaneQueues};
    ghost use Rattle.gev_lanes.specs.Sides.{HaveRoom};

    ghost Value = { List LaneQueues };

    ghost view = { λ l. l.queues.items };

    ghost invariant = { λ l. HaveRoom l.queues.items };
}

/// The reader's ends of all queues.
#[derive(Drop)]
pub struct ReaderEnds {
    pub(crate) lanes: Vec<ReaderLane>,
    // How many datagrams found no free cell. No clause speaks of it.
    pub(crate) shed: u64,
}

impl Model for ReaderEnds {
    ghost use Rattle.std.specs.Prelude.{List};
    ghost use Rattle.gev_lanes.specs.declared.parts.ReaderLane.{ReaderLane};

    ghost Value = { List ReaderLane };

    ghost view = { λ r. r.lanes.items };
}

/// A lane's ends of its queues, with its number.
#[derive(Drop)]
pub struct LaneEnds {
    pub(crate) number: u8,
    pub(crate) hands: LaneHands,
}

impl Model for LaneEnds {
    ghost use Rattle.gev_lanes.specs.Sides.{LaneEnd};

    ghost Value = { LaneEnd };

    ghost view = { λ e. record { number = e.number; hands = e.hands } };
}
