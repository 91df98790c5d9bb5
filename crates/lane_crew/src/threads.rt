//! The reader and the lanes as threads, and the stop of the acquisition behind them.

ghost use Rattle.std.specs.Prelude.{◌≡◌, ◌<◌, length};
ghost use Rattle.client_machine.specs.Machine.{HasSubmittedNone};
ghost use Rattle.buffer_words.specs.Boards.{board_id};
ghost use Rattle.buffer_words.specs.Passes.{IsEmptyHanded, SameHands};
ghost use Rattle.buffer_words.specs.Workers.{Works};
ghost use Rattle.live_crew.specs.Crews.{ComesBack};
ghost use Rattle.gev_control.specs.Ends.{is_fault_end};
ghost use Rattle.gev_acq.specs.Reading.{FaultsOf};
ghost use Rattle.gev_acq.specs.Hosts.{outside_of};
ghost use Rattle.gev_lanes.specs.Sides.{AreReadersOf, AreKept, AreNew};
ghost use Rattle.lane_crew.specs.Kinds.{is_lane_readers};
ghost use Rattle.lane_crew.specs.Tools.{AreReady, AreServed, ends_in};
ghost use Rattle.lane_crew.specs.Reader.{ReadsAll};
ghost use Rattle.lane_crew.specs.Crew.{ReadsByLanes};

use crate::homing::bring_home;
use crate::lane_tools::LaneTools;
use crate::lanes_reader::{LanesReader, Reading};
use crate::reading::read_all;
use crate::serving::run_lanes;
use board_calls::Mode;
use buffer_words::{Board, Pass};
use gev_acq::Acquired;
use gev_control::AcqEnd;
use gev_lanes::Lanes;
use gev_links::{Clock, Gate, Link};
use live_crew::Worked;
use std::alloc::Global;
use std::sync::Wait;
use std::thread;
use std::thread::Threads;

// The reader, with what it works on by value.
fn read_on<R: Wait, S: Link, M: Link, C: Clock>(
    rt: &R,
    board: &Board,
    lanes: &Lanes,
    mut mine: Reading<S, M, C>,
) -> (Reading<S, M, C>, AcqEnd)
    requires table { mine.pass.table ≡ board_id board.now }
    requires reader { AreReadersOf lanes.now mine.reader }
    requires some { 0 < length lanes.now }
    requires kept { AreKept mine.reader }
    requires client { HasSubmittedNone mine.host.client }
    ensures reads { ReadsAll (length lanes.now) mine.camera mine.own (outside_of S.received M.received M.sent C.told mine.host) (outside_of S.received M.received M.sent C.told result.0.host)
        mine.turns result.1 mine.reader result.0.reader mine.pass result.0.pass }
    ensures reader { AreReadersOf lanes.now result.0.reader }
    ensures table { result.0.pass.table ≡ mine.pass.table }
    ensures hands { SameHands mine.pass result.0.pass }
    ensures faults { FaultsOf (is_fault_end result.1) (S.faults mine.host.stream) (S.faults result.0.host.stream) (M.faults mine.host.control) (M.faults result.0.host.control) }
{
    let end = read_all(rt, board, lanes, &mut mine);
    (mine, end)
}

// The reader, and the lanes as threads beside it.
fn read_and_serve<
    R: Threads + Wait + Sync,
    S: Link + Drop,
    M: Link + Drop,
    C: Clock + Drop,
    G: Gate + Sync,
>(
    rt: &R,
    board: &Board,
    lanes: &Lanes,
    gate: &G,
    mine: Reading<S, M, C>,
    tools: Vec<LaneTools>,
    mode: Mode,
) -> (Vec<LaneTools>, (Reading<S, M, C>, AcqEnd))
    requires table { mine.pass.table ≡ board_id board.now }
    requires reader { AreReadersOf lanes.now mine.reader }
    requires some { 0 < length lanes.now }
    requires kept { AreKept mine.reader }
    requires client { HasSubmittedNone mine.host.client }
    requires ready { AreReady (board_id board.now) lanes.now tools.items }
    ensures served { AreServed mode lanes.now tools.items result.0.items }
    ensures reads { ReadsAll (length lanes.now) mine.camera mine.own (outside_of S.received M.received M.sent C.told mine.host) (outside_of S.received M.received M.sent C.told result.1.0.host)
        mine.turns result.1.1 mine.reader result.1.0.reader mine.pass result.1.0.pass }
    ensures reader { AreReadersOf lanes.now result.1.0.reader }
    ensures table { result.1.0.pass.table ≡ mine.pass.table }
    ensures hands { SameHands mine.pass result.1.0.pass }
    ensures faults { FaultsOf (is_fault_end result.1.1) (S.faults mine.host.stream) (S.faults result.1.0.host.stream) (M.faults mine.host.control) (M.faults result.1.0.host.control) }
{
    // Where no thread can be made the first call is the last: a lane that ran before the reader would wait for ever. The
    // reader ends without its lanes.
    thread::join(
        rt,
        move || -> Vec<LaneTools>
            requires { AreReady (board_id board.now) lanes.now tools.items }
            ensures { AreServed mode lanes.entry.now tools.items result.items }
        { run_lanes(rt, board, lanes, gate, tools, mode) },
        move || -> (Reading<S, M, C>, AcqEnd)
            requires { (mine.pass.table ≡ board_id board.now) × AreReadersOf lanes.now mine.reader × (0 < length lanes.now) × AreKept mine.reader × HasSubmittedNone mine.host.client }
            ensures { ReadsAll (length lanes.entry.now) mine.camera mine.own (outside_of S.received M.received M.sent C.told mine.host) (outside_of S.received M.received M.sent C.told result.0.host)
                mine.turns result.1 mine.reader result.0.reader mine.pass result.0.pass
                × AreReadersOf lanes.entry.now result.0.reader × (result.0.pass.table ≡ mine.pass.table) × SameHands mine.pass result.0.pass
                × FaultsOf (is_fault_end result.1) (S.faults mine.host.stream) (S.faults result.0.host.stream) (M.faults mine.host.control) (M.faults result.0.host.control) }
        { read_on(rt, board, lanes, mine) },
    )
}

/// The acquisition's worker of a live run with lanes: sets the camera up to send its stream to the reader, and makes at
/// most the asked number of turns of the reader where that was done, with each lane as a thread beside it. In every case
/// each lane is told of the end, serves what it was given, and fills what retires, by the buffer handling mode; then the
/// lanes' passes are joined, and only then the acquisition is stopped. Where no thread can be made the reader runs first,
/// and then one lane after another; a lane for which none can be made serves once the reader or another lane has ended,
/// and what found no free cell of it till then was shed.
pub fn read_by_lanes<
    R: Threads + Wait + Sync,
    S: Link + Drop,
    M: Link + Drop,
    C: Clock + Drop,
    G: Gate + Sync,
>(
    rt: &R,
    alloc: Global,
    board: &Board,
    pass: Pass,
    gate: &G,
    mine: LanesReader<S, M, C>,
) -> Worked<Acquired<S, M, C>>
    requires table { pass.table ≡ board_id board.now }
    requires hands { IsEmptyHanded pass }
    requires client { HasSubmittedNone mine.host.client }
    requires new { AreNew 0 mine.lanes mine.reader (ends_in mine.tools.items) }
    requires readers { AreReadersOf mine.lanes mine.reader }
    requires ready { AreReady (board_id board.now) mine.lanes mine.tools.items }
    requires some { 0 < length mine.lanes }
    ensures reads { ReadsByLanes mine.mode mine.camera mine.own (outside_of S.received M.received M.sent C.told mine.host) (outside_of S.received M.received M.sent C.told result.done.host)
        mine.reader mine.tools.items mine.turns result.done.end pass result.pass }
    ensures works { Works is_lane_readers pass result.pass }
    ensures back { ComesBack pass result.pass }
    ensures faults { FaultsOf (is_fault_end result.done.end) (S.faults mine.host.stream) (S.faults result.done.host.stream) (M.faults mine.host.control) (M.faults result.done.host.control) }
{
    let LanesReader {
        lanes,
        reader,
        tools,
        host,
        camera,
        own,
        turns,
        mode,
    } = mine;
    let reading = Reading {
        pass,
        reader,
        host,
        camera,
        own,
        turns,
    };
    let (served, (back, end)) = read_and_serve(rt, board, &lanes, gate, reading, tools, mode);
    let Reading {
        mut pass,
        mut reader,
        host,
        camera: _,
        own: _,
        turns: _,
    } = back;
    let counts = bring_home(board, &mut pass, &lanes, &mut reader, served);
    let _stopped = board.stop(&mut pass, false);
    Worked {
        pass,
        done: Acquired {
            host,
            journal: Vec::new(alloc),
            counts,
            shed: Some(reader.shed()),
            end,
        },
    }
}
