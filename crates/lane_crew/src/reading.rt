//! The reader from the setup to its end.

ghost use Rattle.std.specs.Prelude.{◌≡◌, ◌<◌, length};
ghost use Rattle.client_machine.specs.Machine.{HasSubmittedNone};
ghost use Rattle.buffer_words.specs.Boards.{board_id};
ghost use Rattle.buffer_words.specs.Passes.{SameHands};
ghost use Rattle.gev_control.specs.Ends.{is_fault_end};
ghost use Rattle.gev_acq.specs.Reading.{FaultsOf};
ghost use Rattle.gev_acq.specs.Hosts.{outside_of};
ghost use Rattle.gev_lanes.specs.Sides.{AreReadersOf, AreKept};
ghost use Rattle.lane_crew.specs.Reader.{ReadsAll};

use crate::lanes_reader::Reading;
use buffer_words::Board;
use gev_control::{AcqEnd, setup};
use gev_lanes::Lanes;
use gev_links::{Clock, Link};
use lane_reader::{end_lanes, read_lanes};
use std::sync::Wait;

/// Sets the camera up, makes the reader's turns where that was done, and in every case tells each lane of the end.
pub(crate) fn read_all<R: Wait, S: Link, M: Link, C: Clock>(
    rt: &R,
    board: &Board,
    lanes: &Lanes,
    mine: &mut Reading<S, M, C>,
) -> AcqEnd
    requires table { mine.old.pass.table ≡ board_id board.now }
    requires reader { AreReadersOf lanes.now mine.old.reader }
    requires some { 0 < length lanes.now }
    requires kept { AreKept mine.old.reader }
    requires client { HasSubmittedNone mine.old.host.client }
    ensures reader { AreReadersOf lanes.now mine.new.reader }
    ensures reads { ReadsAll (length lanes.now) mine.old.camera mine.old.own (outside_of S.received M.received M.sent C.told mine.old.host) (outside_of S.received M.received M.sent C.told mine.new.host)
        mine.old.turns result mine.old.reader mine.new.reader mine.old.pass mine.new.pass }
    ensures faults { FaultsOf (is_fault_end result) (S.faults mine.old.host.stream) (S.faults mine.new.host.stream) (M.faults mine.old.host.control) (M.faults mine.new.host.control) }
    ensures table { mine.new.pass.table ≡ mine.old.pass.table }
    ensures hands { SameHands mine.old.pass mine.new.pass }
{
    let end = setup(
        rt,
        &mut mine.host.client,
        &mut mine.host.control,
        &mut mine.host.clock,
        mine.camera,
        mine.own,
    );
    match end {
        AcqEnd::Stopped => read_lanes(
            rt,
            board,
            &mut mine.pass,
            lanes,
            &mut mine.reader,
            &mut mine.host.client,
            &mut mine.host.stream,
            &mut mine.host.control,
            &mut mine.host.clock,
            mine.camera,
            mine.turns,
        ),
        _ => {
            end_lanes(rt, lanes, &mut mine.reader);
            end
        }
    }
}
