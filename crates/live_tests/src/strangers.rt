//! A live run over sockets, to whose stream's port a stranger sends what it likes.

use board_calls::Mode;
use buffer_words::Board;
use gev_frames::Lcg;
use gev_links::{Failed, Link, MemorySink, OpenGate, Ports};
use gev_live::{Ends, live_over};
use gev_real::{MonotonicClock, RealPorts, UdpLink};
use gev_status::Status;
use gev_types::{NoMemory, Peer};
use std::alloc::Global;
use std::fs::Files;
use std::net::Net;
use std::sync::Wait;
use std::test::Fail;
use std::thread;
use std::thread::Threads;
use std::time::Clock as Time;

/// How many datagrams the stranger sends.
const DATAGRAMS: u32 = 2_000;

/// Behind so many datagrams it waits for one, in vain, which lets a millisecond pass.
const BURST: u32 = 16;

/// The frames that are asked for, and the turns that the reader has for them.
const FRAMES: u32 = 50;

const TURNS: u64 = 20_000;

/// What stands behind the header of a leader of 640 x 480 pixels, and at its front what stands behind a trailer's.
const BODY: &[u8] =
    b"\0\0\0\x01\0\0\x01\xe0\0\0\0\x01\x01\x08\0\x01\0\0\x02\x80\0\0\x01\xe0\0\0\0\0\0\0\0\0\0\0\0\0";

/// Puts up to 64 random bytes behind these.
fn push_random(bytes: &mut Vec<u8>, draws: &mut Lcg) -> Result<(), NoMemory> {
    for _ in 0..draws.draw() % 65 {
        bytes.push((draws.draw() % 256) as u8)?;
    }
    Ok(())
}

/// Puts a packet of one of the blocks that come first behind these.
fn push_packet(bytes: &mut Vec<u8>, draws: &mut Lcg) -> Result<(), NoMemory> {
    let block = u64::from(draws.draw() % 30) + 1;
    let format = u64::from(0x80 | draws.draw() % 4) << 24;
    let packet = draws.draw() % 214;
    bytes.extend_from_slice(format.to_be_bytes().as_slice())?;
    bytes.extend_from_slice(block.to_be_bytes().as_slice())?;
    bytes.extend_from_slice(packet.to_be_bytes().as_slice())?;
    bytes.extend_from_slice(BODY)?;
    Ok(())
}

/// Changes one of the first 28 bytes.
fn change_byte(bytes: &mut [u8], draws: &mut Lcg) {
    let place = draws.draw() % 28;
    if let Some(byte) = bytes.get_mut(place as usize) {
        *byte = (draws.draw() % 256) as u8;
    }
}

/// Fills in the next datagram: random bytes, or a packet, of which a byte may be changed.
fn push_datagram(bytes: &mut Vec<u8>, draws: &mut Lcg) -> Result<(), NoMemory> {
    let kind = draws.draw() % 3;
    if kind == 0 {
        return push_random(bytes, draws);
    }
    push_packet(bytes, draws)?;
    if kind == 1 {
        change_byte(bytes.as_mut_slice(), draws);
    }
    Ok(())
}

/// Sends the next datagram: whether it was sent.
fn send_next(
    alloc: Global,
    link: &mut UdpLink,
    to: Peer,
    draws: &mut Lcg,
) -> Result<bool, NoMemory> {
    let mut bytes = Vec::new(alloc);
    push_datagram(&mut bytes, draws)?;
    Ok(link.send(to, &bytes).is_ok())
}

/// Sends to this port; the number of datagrams that were sent.
fn send_all(alloc: Global, link: &mut UdpLink, to: Peer) -> u32 {
    let mut draws = Lcg::new(1);
    let mut sent = 0u32;
    let mut out = [0u8; 9000];
    for number in 0..DATAGRAMS {
        if number % BURST == 0 {
            let _ = link.recv(&mut out);
        }
        match send_next(alloc, link, to, &mut draws) {
            Ok(true) => sent = sent.saturating_add(1),
            Ok(false) => {}
            Err(_) => return sent,
        }
    }
    sent
}

/// Whether this is a line of a take: its last 64 characters are a digest.
fn is_take(line: &[u8]) -> bool {
    let digest = line.len().saturating_sub(64);
    let (front, digits) = line.split_at(digest);
    line.starts_with(b"take ")
        && front.ends_with(b" sha256=")
        && digits.iter().all(|digit| digit.is_ascii_hexdigit())
}

/// How many lines of takes a run's text has, where there is one last line beside them and nothing else.
fn takes_in(text: &[u8]) -> Option<u32> {
    let mut takes = 0u32;
    let mut others = 0u32;
    for line in text.split(|byte| *byte == b'\n') {
        if is_take(line) {
            takes = takes.saturating_add(1);
        } else if line.starts_with(b"live frames=50 taken=") {
            others = others.saturating_add(1);
        } else if !line.is_empty() {
            return None;
        }
    }
    if others == 1 { Some(takes) } else { None }
}

/// Whether a run that handed out so many frames may have this answer.
fn may_answer(answer: Status, takes: u32) -> bool {
    match answer {
        Status::Done => takes == FRAMES,
        Status::TurnsSpent { turns, frames } => turns == TURNS && frames == takes,
        other => matches!(other, Status::NoAnswer { .. }),
    }
}

/// Whether a run with this answer may have written this text.
fn may_write(answer: Status, text: &[u8]) -> bool {
    match takes_in(text) {
        Some(takes) => may_answer(answer, takes),
        None => false,
    }
}

/// The links and clocks of a run, with the address of its stream.
type Bound<'a, R> = (Ends<UdpLink, UdpLink, MonotonicClock<'a, R>>, Peer);

/// The ends with this camera's link.
fn bind_host<'a, R: Net + Time + Files + Sync>(
    ports: &mut RealPorts<'a, R>,
    camera: UdpLink,
) -> Result<Bound<'a, R>, Failed> {
    let (stream, own) = ports.bind()?;
    let (control, _) = ports.bind()?;
    let ends = Ends {
        camera,
        stream,
        control,
        camera_clock: ports.clock(),
        host_clock: ports.clock(),
        app_clock: ports.clock(),
    };
    Ok((ends, own))
}

/// The ends of a run.
fn bind_all<'a, R: Net + Time + Files + Sync>(
    ports: &mut RealPorts<'a, R>,
) -> Result<Bound<'a, R>, Failed> {
    let (camera, _) = ports.bind()?;
    bind_host(ports, camera)
}

/// The answer of a run over these ends.
fn run<R: Net + Time + Files + Threads + Wait + Sync>(
    rt: &R,
    alloc: Global,
    ends: Ends<UdpLink, UdpLink, MonotonicClock<'_, R>>,
    sink: &mut MemorySink<'_>,
) -> Result<Status, NoMemory> {
    let (board, mut pass) = Board::new(alloc)?;
    let (answer, _ends) = live_over(
        rt,
        alloc,
        &board,
        &mut pass,
        1,
        FRAMES,
        4,
        1,
        TURNS,
        ends,
        &OpenGate,
        sink,
        Mode::OldestFirst,
    );
    Ok(answer)
}

/// The answer of a run to whose stream's port the stranger sends, and how many datagrams it sent.
fn run_beside<R: Net + Time + Files + Threads + Wait + Sync>(
    rt: &R,
    alloc: Global,
    bound: Bound<'_, R>,
    stranger: UdpLink,
    sink: &mut MemorySink<'_>,
) -> Result<(Status, u32), Fail> {
    let (ends, own) = bound;
    let mut stranger = stranger;
    let Ok(sending) = thread::spawn(rt, move || send_all(alloc, &mut stranger, own)) else {
        return Err(Fail::new("no thread for the stranger"));
    };
    let answer = run(rt, alloc, ends, sink);
    let sent = sending.join(rt);
    Ok((answer?, sent))
}

// The stranger's datagrams come among the camera's, and some of them are packets of its blocks. The run has an answer
// all the same, and its text is take lines and the last line.
#[test]
fn strangers_are_heard_like_any_other(rt: HostRuntime) -> Result<(), Fail> {
    let alloc = rt.alloc();
    // The first link of new ports is one that waits.
    let (stranger, _) = RealPorts::new(&rt).bind()?;
    let bound = bind_all(&mut RealPorts::new(&rt))?;
    let mut sink = MemorySink::new(alloc, 10_000, &[]);
    let (answer, sent) = run_beside(&rt, alloc, bound, stranger, &mut sink)?;
    assert!(rt; sent == DATAGRAMS && may_write(answer, sink.written()));
    Ok(())
}
