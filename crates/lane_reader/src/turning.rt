//! One turn of the reader, after its look at the run word.

ghost use Rattle.std.specs.Prelude.{◌≡◌, ◌<◌, length};
ghost use Rattle.gev_links.specs.Links.{receive_room};
ghost use Rattle.gev_control.specs.Controlled.{is_fault};
ghost use Rattle.gev_acq.specs.Reading.{is_lost, FaultsOf};
ghost use Rattle.gev_lanes.specs.Sides.{AreReadersOf};
ghost use Rattle.lane_reader.specs.Turned.{TakesOne};

use crate::asking::ask_lanes;
use crate::hearing::bring_received;
use crate::lent::Lent;
use crate::ticking::tick_lanes;
use gev_control::{TurnEnd, client_turn};
use gev_lanes::{Lanes, ReaderEnds};
use gev_links::{Clock, Failed, Link};
use gev_types::Peer;
use std::sync::Wait;

// Whether the receive failed.
fn has_failed(received: &Result<Option<(usize, Peer)>, Failed>) -> bool
    ensures { result ≡ is_lost received.now }
{
    match received {
        Ok(_) => false,
        Err(_) => true,
    }
}

/// One turn of the reader: how it ended.
pub(crate) fn read_turn<R: Wait, L: Link, M: Link, C: Clock>(
    rt: &R,
    lanes: &Lanes,
    reader: &mut ReaderEnds,
    lent: &mut Lent<'_, '_, '_, '_, L, M, C>,
    camera: Peer,
    out: &mut [u8],
) -> TurnEnd
    requires reader { AreReadersOf lanes.now reader.old }
    requires some { 0 < length lanes.now }
    requires room { length out.old ≡ receive_room }
    ensures reader { AreReadersOf lanes.now reader.new }
    ensures takes { TakesOne (length lanes.now) camera
        (record { received = L.received lent.old.stream.now; heard = M.received lent.old.control.now; sent = M.sent lent.old.control.now; told = C.told lent.old.clock.now; client = lent.old.client.now })
        (record { received = L.received lent.new.stream.now; heard = M.received lent.new.control.now; sent = M.sent lent.new.control.now; told = C.told lent.new.clock.now; client = lent.new.client.now })
        result reader.old reader.new }
    ensures faults { FaultsOf (is_fault result) (L.faults lent.old.stream.now) (L.faults lent.new.stream.now) (M.faults lent.old.control.now) (M.faults lent.new.control.now) }
    ensures same_stream { lent.new.stream.ghost_name ≡ lent.old.stream.ghost_name }
    ensures same_control { lent.new.control.ghost_name ≡ lent.old.control.ghost_name }
    ensures same_clock { lent.new.clock.ghost_name ≡ lent.old.clock.ghost_name }
    ensures same_client { lent.new.client.ghost_name ≡ lent.old.client.ghost_name }
{
    let received = lent.stream.recv(out);
    let moment = lent.clock.now();
    let lost = has_failed(&received);
    bring_received(rt, lanes, reader, moment, received, out);
    tick_lanes(rt, lanes, reader, moment);
    let failed = ask_lanes(rt, lanes, reader, lent.control, camera, lost);
    client_turn(lent.client, lent.control, camera, moment, failed, out)
}
