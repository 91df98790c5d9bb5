//! All turns of the reader, and the end for each lane.

ghost use Rattle.std.specs.Prelude.{◌≡◌, ◌<◌, length};
ghost use Rattle.buffer_words.specs.Boards.{board_id};
ghost use Rattle.buffer_words.specs.Passes.{SameHands};
ghost use Rattle.gev_control.specs.Ends.{is_fault_end};
ghost use Rattle.gev_acq.specs.Reading.{FaultsOf};
ghost use Rattle.gev_lanes.specs.Sides.{AreReadersOf, AreKept};
ghost use Rattle.lane_reader.specs.Reads.{ReadsTurns, ReadsLanes};

use crate::ending::end_lanes;
use crate::lent::Lent;
use crate::turning::read_turn;
use buffer_words::{Board, Pass};
use control_client::Client;
use gev_control::{AcqEnd, TurnEnd};
use gev_lanes::{Lanes, ReaderEnds};
use gev_links::{Clock, Link};
use gev_types::Peer;
use std::sync::Wait;

// The room of a receive, in bytes, which is that of a cell.
const RECEIVE_ROOM: usize = 9000;

// The turns alone.
fn make_turns<R: Wait, L: Link, M: Link, C: Clock>(
    rt: &R,
    board: &Board,
    pass: &mut Pass,
    lanes: &Lanes,
    reader: &mut ReaderEnds,
    lent: &mut Lent<'_, '_, '_, '_, L, M, C>,
    camera: Peer,
    turns: u64,
) -> AcqEnd
    requires table { pass.old.table ≡ board_id board.now }
    requires reader { AreReadersOf lanes.now reader.old }
    requires some { 0 < length lanes.now }
    ensures reader { AreReadersOf lanes.now reader.new }
    ensures reads { ReadsTurns (length lanes.now) camera
        (record { received = L.received lent.old.stream.now; heard = M.received lent.old.control.now; sent = M.sent lent.old.control.now; told = C.told lent.old.clock.now; client = lent.old.client.now })
        (record { received = L.received lent.new.stream.now; heard = M.received lent.new.control.now; sent = M.sent lent.new.control.now; told = C.told lent.new.clock.now; client = lent.new.client.now })
        turns result reader.old reader.new pass.old pass.new }
    ensures faults { FaultsOf (is_fault_end result) (L.faults lent.old.stream.now) (L.faults lent.new.stream.now) (M.faults lent.old.control.now) (M.faults lent.new.control.now) }
    ensures same_stream { lent.new.stream.ghost_name ≡ lent.old.stream.ghost_name }
    ensures same_control { lent.new.control.ghost_name ≡ lent.old.control.ghost_name }
    ensures same_clock { lent.new.clock.ghost_name ≡ lent.old.clock.ghost_name }
    ensures same_client { lent.new.client.ghost_name ≡ lent.old.client.ghost_name }
    ensures table { pass.new.table ≡ pass.old.table }
    ensures hands { SameHands pass.old pass.new }
{
    let mut out = [0; RECEIVE_ROOM];
    'turns: for _turn in 0..turns {
        let run = board.look_run(pass);
        if run != 1 {
            return AcqEnd::Stopped;
        }
        let end = read_turn(rt, lanes, reader, lent, camera, &mut out);
        match end {
            TurnEnd::GoesOn => {}
            TurnEnd::Fault => return AcqEnd::Fault,
            TurnEnd::NoAnswer(req) => return AcqEnd::NoAnswer(req),
            TurnEnd::Refused(status) => return AcqEnd::Refused(status),
        }
    }
    AcqEnd::Spent
}

/// The reader of a live run with lanes: makes at most `turns` turns, sends what it has to send to the peer
/// `camera`, and at its end, whatever the cause, tells each lane that it has ended, in a cell that was kept for it: it
/// waits for no lane.
///
/// A turn looks at the run word, and the reader ends where that isn't 1. It receives once on `stream`, reads the
/// clock once, brings the datagram that came to its lane and the moment to each lane whose last cell had a lower
/// one, and sends up to 64 requests of each lane, by rising lane, on `control`. There it receives once, gives the
/// client what came, lets it tick and sends what it has to send. A datagram for a lane without a free cell is shed.
/// After a receive or a send that failed the turn sends and receives nothing more, and is the last one.
pub fn read_lanes<R: Wait, L: Link, M: Link, C: Clock>(
    rt: &R,
    board: &Board,
    pass: &mut Pass,
    lanes: &Lanes,
    reader: &mut ReaderEnds,
    client: &mut Client,
    stream: &mut L,
    control: &mut M,
    clock: &mut C,
    camera: Peer,
    turns: u64,
) -> AcqEnd
    requires table { pass.old.table ≡ board_id board.now }
    requires reader { AreReadersOf lanes.now reader.old }
    requires some { 0 < length lanes.now }
    requires kept { AreKept reader.old }
    ensures reader { AreReadersOf lanes.now reader.new }
    ensures reads { ReadsLanes (length lanes.now) camera
        (record { received = L.received stream.old; heard = M.received control.old; sent = M.sent control.old; told = C.told clock.old; client = client.old })
        (record { received = L.received stream.new; heard = M.received control.new; sent = M.sent control.new; told = C.told clock.new; client = client.new })
        turns result reader.old reader.new pass.old pass.new }
    ensures faults { FaultsOf (is_fault_end result) (L.faults stream.old) (L.faults stream.new) (M.faults control.old) (M.faults control.new) }
    ensures table { pass.new.table ≡ pass.old.table }
    ensures hands { SameHands pass.old pass.new }
{
    let mut lent = Lent {
        stream,
        control,
        clock,
        client,
    };
    let end = make_turns(rt, board, pass, lanes, reader, &mut lent, camera, turns);
    end_lanes(rt, lanes, reader);
    end
}
