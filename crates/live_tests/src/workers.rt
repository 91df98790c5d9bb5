//! Two lanes and their reader, one after the other on one thread.

ghost use Rattle.std.specs.Prelude.{◌≡◌, ◌<◌, ◌≤◌, length};
ghost use Rattle.buffer_words.specs.Boards.{board_id};
ghost use Rattle.gev_types.specs.Limits.{place_count};
ghost use Rattle.gev_lanes.specs.Sides.{AreReadersOf, AreKept, AreLanesOf, IsLaneAt};

use crate::boards::{CAMERA, ONE_BLOCK, PACKETS, new_board, next_block};
use acq_core::Acq;
use board_calls::Mode;
use buffer_words::{Board, Pass};
use control_client::Client;
use gev_acq::AcqEnd;
use gev_lanes::{LaneEnds, Lanes, ReaderEnds};
use gev_links::{MemoryClock, MemoryLink, OpenGate};
use gev_types::NoMemory;
use lane_crew::lane;
use lane_reader::read_lanes;
use std::alloc::Global;
use std::sync::Wait;
use std::test::Fail;

// A lane takes its cells up to the end, with a receiver of its own, and meets the reader.
fn serve_one<R: Wait>(
    rt: &R,
    alloc: Global,
    board: &Board,
    pass: &mut Pass,
    lanes: &Lanes,
    reader: &mut ReaderEnds,
    mut ends: LaneEnds,
    mode: Mode,
) -> Result<(), NoMemory>
    requires table { pass.old.table ≡ board_id board.now }
    requires reader { AreReadersOf lanes.now reader.old }
    requires lane { IsLaneAt lanes.now ends }
    ensures table { pass.new.table ≡ pass.old.table }
    ensures reader { reader.new ≡ reader.old }
{
    let mut acq = Acq::new(alloc, ONE_BLOCK)?;
    lane(rt, board, pass, lanes, &mut ends, &mut acq, &OpenGate, mode);
    lanes.meet(reader, ends);
    Ok(())
}

// The lanes, the last one first: lane 1 has block 2, and lane 0 block 1.
fn serve_all<R: Wait>(
    rt: &R,
    alloc: Global,
    board: &Board,
    pass: &mut Pass,
    lanes: &Lanes,
    reader: &mut ReaderEnds,
    mut all: Vec<LaneEnds>,
    mode: Mode,
) -> Result<(), NoMemory>
    requires table { pass.old.table ≡ board_id board.now }
    requires reader { AreReadersOf lanes.now reader.old }
    requires lanes { AreLanesOf lanes.now all.items }
    ensures table { pass.new.table ≡ pass.old.table }
{
    'lanes: while let Some(ends) = all.pop() {
        serve_one(rt, alloc, board, pass, lanes, reader, ends, mode)?;
    }
    Ok(())
}

/// Whether the reader makes six turns over these links, with a clock that always tells 0, and sends nothing.
fn reads_all<R: Wait>(
    rt: &R,
    board: &Board,
    pass: &mut Pass,
    lanes: &Lanes,
    reader: &mut ReaderEnds,
    stream: &mut MemoryLink<'_>,
    control: &mut MemoryLink<'_>,
) -> bool
    requires table { pass.old.table ≡ board_id board.now }
    requires reader { AreReadersOf lanes.now reader.old }
    requires some { 0 < length lanes.now }
    requires kept { AreKept reader.old }
    ensures table { pass.new.table ≡ pass.old.table }
    ensures reader { AreReadersOf lanes.now reader.new }
{
    let mut client = Client::new();
    let mut clock = MemoryClock::new(&[]);
    let end = read_lanes(
        rt,
        board,
        pass,
        lanes,
        reader,
        &mut client,
        stream,
        control,
        &mut clock,
        CAMERA,
        6,
    );
    end == AcqEnd::Spent && control.sent().is_empty()
}

/// Whether the reader reads all that comes over these links, and then the two lanes serve what they got, block 2 first.
fn serves_links<R: Wait>(
    rt: &R,
    alloc: Global,
    board: &Board,
    pass: &mut Pass,
    stream: &mut MemoryLink<'_>,
    control: &mut MemoryLink<'_>,
    mode: Mode,
) -> Result<bool, NoMemory>
    requires table { pass.old.table ≡ board_id board.now }
    ensures table { pass.new.table ≡ pass.old.table }
{
    let (lanes, mut reader, all) = Lanes::new(alloc, 2)?;
    let read = reads_all(rt, board, pass, &lanes, &mut reader, stream, control);
    serve_all(rt, alloc, board, pass, &lanes, &mut reader, all, mode)?;
    Ok(read)
}

/// The same of links over which the six datagrams of two blocks come.
fn serves_blocks<R: Wait>(
    rt: &R,
    alloc: Global,
    board: &Board,
    pass: &mut Pass,
    mode: Mode,
) -> Result<bool, NoMemory>
    requires table { pass.old.table ≡ board_id board.now }
    ensures table { pass.new.table ≡ pass.old.table }
{
    let mut stream = MemoryLink::new(alloc, CAMERA, PACKETS, &[], &[], 0)?;
    let mut control = MemoryLink::new(alloc, CAMERA, &[], &[], &[], 9)?;
    serves_links(rt, alloc, board, pass, &mut stream, &mut control, mode)
}

/// Whether all that came was served, and the blocks of two takes behind that.
fn blocks_served<R: Wait>(
    rt: &R,
    alloc: Global,
    buffers: u8,
    mode: Mode,
) -> Result<(bool, u64, u64), NoMemory>
    requires few { buffers ≤ place_count }
{
    let (board, mut pass) = new_board(alloc, buffers)?;
    let served = serves_blocks(rt, alloc, &board, &mut pass, mode)?;
    let first = next_block(rt, &board, &mut pass);
    let second = next_block(rt, &board, &mut pass);
    Ok((served, first, second))
}

// Two lanes fill a block each; with one buffer, which waits with block 2, lane 0 overwrites it; and where lane 0 has a
// buffer of its own it drops what waits.
#[test]
fn two_lanes_fill_by_the_mode(rt: HostRuntime) -> Result<(), Fail> {
    let alloc = rt.alloc();
    assert!(rt; blocks_served(&rt, alloc, 2, Mode::OldestFirst)? == (true, 2, 1));
    assert!(rt; blocks_served(&rt, alloc, 1, Mode::OldestFirstOverwrite)? == (true, 1, 0));
    assert!(rt; blocks_served(&rt, alloc, 2, Mode::NewestOnly)? == (true, 1, 0));
    Ok(())
}
