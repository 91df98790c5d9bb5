//! What goes round between a reader and its lanes, on one thread.

ghost use Rattle.std.specs.Prelude.{◌<◌, length, IfSome};
ghost use Rattle.gev_lanes.specs.Sides.{AreReadersOf, AreKept, AreLanesOf, IsLaneAt};

use gev_lanes::{CellKind, LaneEnds, Lanes, ReaderEnds, lane_ends_cross, lanes_are_shared};
use gev_links::MemoryLink;
use gev_types::Peer;
use lane_reader::{ask_lanes, bring_received, bring_to_lane, end_lanes, tick_lanes};
use std::sync::Wait;
use std::test::Fail;

const CAMERA: Peer = Peer {
    address: 0x7f00_0001,
    port: 3956,
};

fn last_lane(lanes: &Lanes, mut ends: Vec<LaneEnds>) -> Option<LaneEnds>
    requires lanes { AreLanesOf lanes.now ends.items }
    ensures lane { IfSome result (λ lane. IsLaneAt lanes.now lane) }
{
    match ends.pop() {
        Some(lane) => Some(lane),
        None => None,
    }
}

// The moment of the lane's next cell, what kind it is, of a datagram with its length, and the first of its bytes. The
// cell is given back.
fn next_message<R: Wait>(rt: &R, lanes: &Lanes, lane: &mut LaneEnds) -> (u64, CellKind, u8)
    requires lane { IsLaneAt lanes.now lane.old }
    ensures lane { IsLaneAt lanes.now lane.new }
{
    let cell = lanes.next_cell(rt, lane);
    let message = (cell.moment, cell.kind, cell.bytes.as_slice()[0]);
    lanes.free_cell(rt, lane, cell);
    message
}

/// Whether a datagram, a moment and the end reach the lane, and the moment of a last cell comes no second time.
fn cells_come<R: Wait>(
    rt: &R,
    lanes: &Lanes,
    reader: &mut ReaderEnds,
    number: usize,
    lane: &mut LaneEnds,
) -> bool
    requires reader { AreReadersOf lanes.now reader.old }
    requires kept { AreKept reader.old }
    requires number { number < length lanes.now }
    requires lane { IsLaneAt lanes.now lane.old }
    ensures reader { AreReadersOf lanes.now reader.new }
    ensures lane { IsLaneAt lanes.now lane.new }
{
    lanes.bring(rt, reader, number, 5, &[7, 8, 9]);
    lanes.tick(rt, reader, number, 5);
    lanes.tick(rt, reader, number, 6);
    lanes.end(rt, reader, number, 0);
    let first = next_message(rt, lanes, lane);
    let second = next_message(rt, lanes, lane);
    let third = next_message(rt, lanes, lane);
    first == (5, CellKind::Datagram(3), 7)
        && second == (6, CellKind::Tick, 0)
        && third == (0, CellKind::End, 0)
}

/// Whether a request of the lane reaches the reader, and no other.
fn request_comes<R: Wait>(
    rt: &R,
    lanes: &Lanes,
    reader: &mut ReaderEnds,
    number: usize,
    lane: &mut LaneEnds,
) -> bool
    requires reader { AreReadersOf lanes.now reader.old }
    requires number { number < length lanes.now }
    requires lane { IsLaneAt lanes.now lane.old }
{
    lanes.put_request(rt, lane, [4; 28]);
    let request = lanes.ask(rt, reader, number);
    let none = lanes.ask(rt, reader, number);
    request == Some([4; 28]) && none.is_none()
}

/// Whether a datagram, a moment and the end reach the last of these lanes in order, and one request of it the reader.
fn last_goes_round<R: Wait>(
    rt: &R,
    lanes: &Lanes,
    reader: &mut ReaderEnds,
    ends: Vec<LaneEnds>,
) -> bool
    requires reader { AreReadersOf lanes.now reader.old }
    requires kept { AreKept reader.old }
    requires some { 0 < length lanes.now }
    requires lanes { AreLanesOf lanes.now ends.items }
{
    match last_lane(lanes, ends) {
        Some(mut lane) => {
            let number = lanes.count() - 1;
            lane_ends_cross(reader, &lane);
            cells_come(rt, lanes, reader, number, &mut lane)
                && request_comes(rt, lanes, reader, number, &mut lane)
        }
        None => false,
    }
}

#[test]
fn cells_and_requests_go_round(rt: HostRuntime) -> Result<(), Fail> {
    let (lanes, mut reader, ends) = Lanes::new(rt.alloc(), 2)?;
    lanes_are_shared(&lanes);
    assert!(rt; last_goes_round(&rt, &lanes, &mut reader, ends));
    Ok(())
}

// A datagram that is no packet, at each moment from 1 to 65.
fn hear_many<R: Wait>(rt: &R, lanes: &Lanes, reader: &mut ReaderEnds)
    requires reader { AreReadersOf lanes.now reader.old }
    requires some { 0 < length lanes.now }
    requires kept { AreKept reader.old }
    ensures reader { AreReadersOf lanes.now reader.new }
    ensures kept { AreKept reader.new }
{
    'moments: for moment in 1..66 {
        bring_to_lane(rt, lanes, reader, moment, &[1, 2, 3]);
    }
}

// Takes so many cells and gives them back: how many datagrams they were, and the last one's moment.
fn take_cells<R: Wait>(rt: &R, lanes: &Lanes, lane: &mut LaneEnds, count: u32) -> (u32, u64)
    requires lane { IsLaneAt lanes.now lane.old }
    ensures lane { IsLaneAt lanes.now lane.new }
{
    let mut datagrams: u32 = 0;
    let mut last = 0;
    'cells: for _cell in 0..count {
        let cell = lanes.next_cell(rt, lane);
        match cell.kind {
            CellKind::Datagram(_) => {
                datagrams = datagrams.saturating_add(1);
                last = cell.moment;
            }
            CellKind::Tick => {}
            CellKind::End => {}
        }
        lanes.free_cell(rt, lane, cell);
    }
    (datagrams, last)
}

/// Whether of 65 datagrams this lane gets 64, and behind them the end.
fn gets_64<R: Wait>(rt: &R, lanes: &Lanes, reader: &mut ReaderEnds, lane: &mut LaneEnds) -> bool
    requires reader { AreReadersOf lanes.now reader.old }
    requires some { 0 < length lanes.now }
    requires kept { AreKept reader.old }
    requires lane { IsLaneAt lanes.now lane.old }
{
    hear_many(rt, lanes, reader);
    let first = take_cells(rt, lanes, lane, 1);
    end_lanes(rt, lanes, reader);
    let others = take_cells(rt, lanes, lane, 64);
    first == (1, 1) && others == (63, 64)
}

/// Whether the last of these lanes gets 64 of 65 datagrams, and behind them the end.
fn last_gets_64<R: Wait>(
    rt: &R,
    lanes: &Lanes,
    reader: &mut ReaderEnds,
    ends: Vec<LaneEnds>,
) -> bool
    requires reader { AreReadersOf lanes.now reader.old }
    requires some { 0 < length lanes.now }
    requires kept { AreKept reader.old }
    requires lanes { AreLanesOf lanes.now ends.items }
{
    match last_lane(lanes, ends) {
        Some(mut lane) => gets_64(rt, lanes, reader, &mut lane),
        None => false,
    }
}

// No lane runs while 65 datagrams come, so the last one is shed: behind the other 64 stands the end.
#[test]
fn the_datagram_behind_64_is_shed(rt: HostRuntime) -> Result<(), Fail> {
    let (lanes, mut reader, ends) = Lanes::new(rt.alloc(), 1)?;
    assert!(rt; last_gets_64(&rt, &lanes, &mut reader, ends));
    Ok(())
}

// Puts 65 requests, each of bytes with its number.
fn put_many<R: Wait>(rt: &R, lanes: &Lanes, lane: &mut LaneEnds)
    requires lane { IsLaneAt lanes.now lane.old }
    ensures lane { IsLaneAt lanes.now lane.new }
{
    'requests: for number in 0..65u8 {
        lanes.put_request(rt, lane, [number; 28]);
    }
}

/// Whether the reader can send what the lanes ask for.
fn sends_requests<R: Wait>(
    rt: &R,
    lanes: &Lanes,
    reader: &mut ReaderEnds,
    control: &mut MemoryLink<'_>,
) -> bool
    requires reader { AreReadersOf lanes.now reader.old }
    requires kept { AreKept reader.old }
    ensures reader { AreReadersOf lanes.now reader.new }
    ensures kept { AreKept reader.new }
{
    let failed = ask_lanes(rt, lanes, reader, control, CAMERA, false);
    !failed
}

/// Whether the reader can send a lane's requests twice, where the lane has put 65 of them.
fn sends_twice<R: Wait>(
    rt: &R,
    lanes: &Lanes,
    reader: &mut ReaderEnds,
    lane: &mut LaneEnds,
    control: &mut MemoryLink<'_>,
) -> bool
    requires reader { AreReadersOf lanes.now reader.old }
    requires kept { AreKept reader.old }
    requires lane { IsLaneAt lanes.now lane.old }
    ensures reader { AreReadersOf lanes.now reader.new }
    ensures kept { AreKept reader.new }
    ensures lane { IsLaneAt lanes.now lane.new }
{
    put_many(rt, lanes, lane);
    let first = sends_requests(rt, lanes, reader, control);
    let second = sends_requests(rt, lanes, reader, control);
    first && second
}

/// Whether of the moments 0 and 7 and a datagram at 7 the lane gets the datagram, and behind it the end.
fn gets_once<R: Wait>(rt: &R, lanes: &Lanes, reader: &mut ReaderEnds, lane: &mut LaneEnds) -> bool
    requires reader { AreReadersOf lanes.now reader.old }
    requires some { 0 < length lanes.now }
    requires kept { AreKept reader.old }
    requires lane { IsLaneAt lanes.now lane.old }
{
    tick_lanes(rt, lanes, reader, 0);
    bring_received(rt, lanes, reader, 7, Ok(Some((2, CAMERA))), &[5, 6, 7]);
    tick_lanes(rt, lanes, reader, 7);
    end_lanes(rt, lanes, reader);
    take_cells(rt, lanes, lane, 2) == (1, 7)
}

/// Whether the last of these lanes has its requests sent, and gets a moment once.
fn last_asks_and_gets<R: Wait>(
    rt: &R,
    lanes: &Lanes,
    reader: &mut ReaderEnds,
    ends: Vec<LaneEnds>,
    control: &mut MemoryLink<'_>,
) -> bool
    requires reader { AreReadersOf lanes.now reader.old }
    requires some { 0 < length lanes.now }
    requires kept { AreKept reader.old }
    requires lanes { AreLanesOf lanes.now ends.items }
{
    match last_lane(lanes, ends) {
        Some(mut lane) => {
            let sent = sends_twice(rt, lanes, reader, &mut lane, control);
            let got = gets_once(rt, lanes, reader, &mut lane);
            sent && got
        }
        None => false,
    }
}

/// Whether 64 requests were sent, the last one with number 63.
fn sent_64(control: &MemoryLink<'_>) -> bool {
    let sent = control.sent();
    sent.len() == 64 && sent[63].1.as_slice() == [63; 28].as_slice()
}

// Of 65 requests the last one finds the queue full; the 64 before it are sent in one turn. A moment reaches the lane
// once.
#[test]
fn the_request_behind_64_is_left_out(rt: HostRuntime) -> Result<(), Fail> {
    let mut control = MemoryLink::new(rt.alloc(), CAMERA, &[], &[], &[], 70)?;
    let (lanes, mut reader, ends) = Lanes::new(rt.alloc(), 1)?;
    let asked = last_asks_and_gets(&rt, &lanes, &mut reader, ends, &mut control);
    assert!(rt; asked && sent_64(&control));
    Ok(())
}
