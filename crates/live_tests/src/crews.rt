//! Reader and lanes as threads over links and a clock in memory.

ghost use Rattle.std.specs.Prelude.{◌≡◌, ◌<◌, length, IfOk};
ghost use Rattle.buffer_words.specs.Boards.{board_id};
ghost use Rattle.gev_lanes.specs.Sides.{AreReadersOf, AreLanesOf, AreNew};
ghost use Rattle.lane_crew.specs.Tools.{AreReady, ends_in};

use crate::boards::{CAMERA, ONE_BLOCK, PACKETS, new_board, next_block};
use acq_core::Acq;
use board_calls::Mode;
use buffer_words::{Board, Pass};
use control_client::Client;
use gev_acq::{Acquired, Host};
use gev_control::AcqEnd;
use gev_lanes::{LaneEnds, Lanes, ReaderEnds};
use gev_links::{MemoryClock, MemoryLink, OpenGate};
use gev_types::{NoMemory, Peer};
use lane_crew::{LaneTools, LanesReader, lanes_parts_stay, read_by_lanes};
use live_crew::Worked;
use std::alloc::Global;
use std::sync::Wait;
use std::test::Fail;
use std::thread::Threads;

const STREAM: Peer = Peer {
    address: 0x7f00_0001,
    port: 49_152,
};

const HOST: Peer = Peer {
    address: 0x7f00_0001,
    port: 49_153,
};

// The acknowledges of the setup's four commands.
const ACKS: &[Option<(&[u8], Peer)>] = &[
    Some((b"\0\0\0\x83\0\x04\0\x01\0\0\0\x01", CAMERA)),
    Some((b"\0\0\0\x83\0\x04\0\x02\0\0\0\x01", CAMERA)),
    Some((b"\0\0\0\x83\0\x04\0\x03\0\0\0\x01", CAMERA)),
    Some((b"\0\0\0\x83\0\x04\0\x04\0\0\0\x01", CAMERA)),
];

// A refusal of the first command with status 0x8006.
const REFUSAL: &[Option<(&[u8], Peer)>] = &[Some((b"\x80\x06\0\x83\0\x04\0\x01\0\0\0\0", CAMERA))];

// A pass and a receiver for each lane.
fn make_tools(
    alloc: Global,
    board: &Board,
    pass: &mut Pass,
    lanes: &Lanes,
    mut ends: Vec<LaneEnds>,
) -> Result<Vec<LaneTools>, NoMemory>
    requires table { pass.old.table ≡ board_id board.now }
    requires lanes { AreLanesOf lanes.now ends.items }
    ensures table { pass.new.table ≡ pass.old.table }
    ensures ready { IfOk result (λ tools. AreReady (board_id board.now) lanes.now tools.items) }
    ensures ends { IfOk result (λ tools. ends_in tools.items ≡ ends.items) }
{
    match ends.pop() {
        Some(last) => {
            let mut tools = make_tools(alloc, board, pass, lanes, ends)?;
            let acq = Acq::new(alloc, ONE_BLOCK)?;
            tools.push(LaneTools {
                pass: board.split(pass),
                ends: last,
                acq,
            })?;
            Ok(tools)
        }
        None => Ok(Vec::new(alloc)),
    }
}

/// The links of a reader: over the stream's the packets of two blocks come, and the control link gives these answers.
fn make_links<'a>(
    alloc: Global,
    answers: &'a [Option<(&'a [u8], Peer)>],
) -> Result<(MemoryLink<'a>, MemoryLink<'a>), NoMemory> {
    let stream = MemoryLink::new(alloc, STREAM, PACKETS, &[], &[], 0)?;
    let control = MemoryLink::new(alloc, HOST, answers, &[], &[], 9)?;
    Ok((stream, control))
}

/// So many new lanes, the reader's ends, and what each lane works with.
fn make_lanes(
    alloc: Global,
    board: &Board,
    pass: &mut Pass,
    count: u8,
) -> Result<(Lanes, ReaderEnds, Vec<LaneTools>), NoMemory>
    requires table { pass.old.table ≡ board_id board.now }
    ensures table { pass.new.table ≡ pass.old.table }
    ensures count { IfOk result (λ made. length made.0 ≡ count) }
    ensures new { IfOk result (λ made. AreNew 0 made.0 made.1 (ends_in made.2.items)) }
    ensures readers { IfOk result (λ made. AreReadersOf made.0 made.1) }
    ensures ready { IfOk result (λ made. AreReady (board_id board.now) made.0 made.2.items) }
{
    let (lanes, reader, ends) = Lanes::new(alloc, count)?;
    let tools = make_tools(alloc, board, pass, &lanes, ends)?;
    Ok((lanes, reader, tools))
}

/// How an acquisition ended, and how many commands it sent.
fn outcome(done: Acquired<MemoryLink<'_>, MemoryLink<'_>, MemoryClock<'_>>) -> (AcqEnd, usize) {
    let Acquired {
        host,
        journal: _,
        counts: _,
        shed: _,
        end,
    } = done;
    (end, host.control.sent().len())
}

/// Reads with so many lanes and these answers of the control link: the end, and how many commands were sent.
fn read_all<R: Threads + Wait + Sync>(
    rt: &R,
    alloc: Global,
    board: &Board,
    host: &mut Pass,
    count: u8,
    answers: &[Option<(&[u8], Peer)>],
) -> Result<(AcqEnd, usize), NoMemory>
    requires table { host.old.table ≡ board_id board.now }
    requires some { 0 < count }
    ensures table { host.new.table ≡ host.old.table }
{
    let (stream, control) = make_links(alloc, answers)?;
    let (lanes, reader, tools) = make_lanes(alloc, board, host, count)?;
    let pass = board.split(host);
    let mine = LanesReader {
        lanes,
        reader,
        tools,
        host: Host {
            stream,
            control,
            clock: MemoryClock::new(&[]),
            client: Client::new(),
        },
        camera: CAMERA,
        own: STREAM,
        turns: 6,
        mode: Mode::OldestFirst,
    };
    let Worked { pass, done } = read_by_lanes(rt, alloc, board, pass, &OpenGate, mine);
    board.join(host, pass);
    Ok(outcome(done))
}

/// The same, and the blocks of two takes behind that, the lower one first.
fn read_blocks<R: Threads + Wait + Sync>(
    rt: &R,
    alloc: Global,
    count: u8,
    answers: &[Option<(&[u8], Peer)>],
) -> Result<(AcqEnd, usize, u64, u64), Fail>
    requires some { 0 < count }
{
    let (board, mut host) = new_board(alloc, 2)?;
    let (end, sent) = read_all(rt, alloc, &board, &mut host, count, answers)?;
    let first = next_block(rt, &board, &mut host);
    let second = next_block(rt, &board, &mut host);
    Ok((end, sent, first.min(second), first.max(second)))
}

// The camera is set up, six turns get two whole blocks, and each fills a buffer: with one lane both are the first lane's,
// else each has a lane of its own, and the others get nothing but the end. Which is filled first is not said.
#[test]
fn blocks_are_read_by_lanes(rt: HostRuntime) -> Result<(), Fail> {
    lanes_parts_stay();
    for count in 1..5u8 {
        let found = read_blocks(&rt, rt.alloc(), count, ACKS)?;
        assert!(rt; found == (AcqEnd::Spent, 4, 1, 2));
    }
    Ok(())
}

// The camera refuses the first command: the lanes are told of the end all the same, and nothing is filled.
#[test]
fn a_refused_setup_ends_the_lanes(rt: HostRuntime) -> Result<(), Fail> {
    for count in [2u8, 4] {
        let found = read_blocks(&rt, rt.alloc(), count, REFUSAL)?;
        assert!(rt; found == (AcqEnd::Refused(0x8006), 1, 0, 0));
    }
    Ok(())
}
