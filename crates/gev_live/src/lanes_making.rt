//! What reader and lanes begin with.

ghost use Rattle.std.specs.Prelude.{◌≡◌, IfOk, vec_capacity};
ghost use Rattle.gev_lanes.specs.Sides.{AreLanesOf};
ghost use Rattle.gev_live.specs.Told.{live_camera};
ghost use Rattle.gev_live.specs.LanesMade.{AreNewParts, ends_of, AreNew};

use crate::tools::{make_camera, make_receiver};
use acq_core::Acq;
use camera_sim::Camera;
use gev_lanes::{LaneEnds, Lanes, ReaderEnds};
use gev_types::NoMemory;
use lane_crew::LaneTools;
use std::alloc::Global;

/// What reader and lanes begin with.
#[derive(Drop)]
pub(crate) struct NewLanes {
    /// The lanes' queues.
    pub(crate) lanes: Lanes,
    /// The reader's ends of them.
    pub(crate) reader: ReaderEnds,
    /// For each lane its ends of them, and the receiver that assembles its blocks.
    pub(crate) parts: Vec<(LaneEnds, Acq)>,
    /// Room for what each lane works with.
    pub(crate) room: Vec<LaneTools>,
}

// What each lane begins with, by the lanes' ends.
fn make_parts(
    alloc: Global,
    lanes: &Lanes,
    mut ends: Vec<LaneEnds>,
) -> Result<Vec<(LaneEnds, Acq)>, NoMemory>
    requires lanes { AreLanesOf lanes.now ends.items }
    ensures new { IfOk result (λ parts. AreNewParts lanes.now parts.items) }
    ensures ends { IfOk result (λ parts. ends_of parts.items ≡ ends.items) }
{
    match ends.pop() {
        Some(last) => {
            let mut parts = make_parts(alloc, lanes, ends)?;
            let acq = make_receiver(alloc)?;
            parts.push((last, acq))?;
            Ok(parts)
        }
        None => Ok(Vec::new(alloc)),
    }
}

// Takes all the memory that reader and lanes will use.
#[tactic(auto, using(crate::proofs::Lasts::new_parts))]
fn make_lanes(alloc: Global, count: u8) -> Result<NewLanes, NoMemory>
    ensures { IfOk result (λ made. AreNew count made.lanes made.reader made.parts.items made.room.items (vec_capacity made.room)) }
{
    let (lanes, reader, ends) = Lanes::new(alloc, count)?;
    let parts = make_parts(alloc, &lanes, ends)?;
    let room = Vec::with_capacity(alloc, parts.len())?;
    Ok(NewLanes {
        lanes,
        reader,
        parts,
        room,
    })
}

/// Takes all the memory that reader and lanes will use, and that of an empty camera.
pub(crate) fn make_lanes_tools(
    alloc: Global,
    seed: u64,
    count: u8,
) -> Result<(Camera, NewLanes), NoMemory>
    ensures camera { IfOk result (λ made. made.0 ≡ live_camera seed) }
    ensures lanes { IfOk result (λ made. AreNew count made.1.lanes made.1.reader made.1.parts.items made.1.room.items (vec_capacity made.1.room)) }
{
    let camera = make_camera(alloc, seed)?;
    let lanes = make_lanes(alloc, count)?;
    Ok((camera, lanes))
}
