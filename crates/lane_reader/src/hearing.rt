//! A datagram on its way to its lane.

ghost use Rattle.std.specs.Prelude.{◌≡◌, ◌<◌, ◌≤◌, length, IfOk, IfSome};
ghost use Rattle.gev_lanes.specs.Sides.{AreReadersOf};
ghost use Rattle.gev_lanes.specs.Acts.{Hears};
ghost use Rattle.gev_links.specs.Links.{Address, answer_of, came as has_come};
ghost use Rattle.lane_reader.specs.LanesTurns.{lane_of, part_of, Each};

use gev_lanes::{Lanes, ReaderEnds};
use gev_links::Failed;
use gev_types::Peer;
use gvsp_wire::parse;
use std::sync::Wait;

// The lane that a datagram is for.
fn lane_for(datagram: &[u8], lanes: usize) -> usize
    requires { 0 < lanes }
    ensures { result ≡ lane_of lanes datagram.now }
{
    match parse(datagram) {
        Ok(packet) => (packet.head().block.saturating_sub(1) % lanes as u64) as usize,
        Err(_) => 0,
    }
}

/// Brings a datagram of at most 9000 bytes to the lane of its block, with its moment in milliseconds. It's shed
/// where that lane has no free cell.
pub fn bring_to_lane<R: Wait>(
    rt: &R,
    lanes: &Lanes,
    reader: &mut ReaderEnds,
    moment: u64,
    datagram: &[u8],
)
    requires reader { AreReadersOf lanes.now reader.old }
    requires some { 0 < length lanes.now }
    requires size { length datagram.now ≤ 9000 }
    ensures reader { AreReadersOf lanes.now reader.new }
    ensures hears { (peer : Address) → Each (λ k. Hears (part_of (length lanes.now) k (has_come datagram.now peer)) moment) 0 reader.old reader.new }
{
    let lane = lane_for(datagram, lanes.count());
    lanes.bring(rt, reader, lane, moment, datagram);
}

/// Brings what came to its lane, by the answer of a receive into `out`.
pub fn bring_received<R: Wait>(
    rt: &R,
    lanes: &Lanes,
    reader: &mut ReaderEnds,
    moment: u64,
    received: Result<Option<(usize, Peer)>, Failed>,
    out: &[u8],
)
    requires reader { AreReadersOf lanes.now reader.old }
    requires some { 0 < length lanes.now }
    requires size { length out.now ≤ 9000 }
    requires count { IfOk received (λ came. IfSome came (λ datagram. datagram.0 ≤ length out.now)) }
    ensures reader { AreReadersOf lanes.now reader.new }
    ensures hears { Each (λ k. Hears (part_of (length lanes.now) k (answer_of received out.now)) moment) 0 reader.old reader.new }
{
    match received {
        Ok(came) => match came {
            Some((count, _)) => bring_to_lane(rt, lanes, reader, moment, &out[..count]),
            None => {}
        },
        Err(_) => {}
    }
}
