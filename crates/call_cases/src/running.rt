//! A call of the program over a source, a sink and ports in memory.

ghost use Rattle.std.specs.Prelude.{◌≡◌, IfSome};
ghost use Rattle.buffer_words.specs.Boards.{board_id};

use crate::datagrams::Heard;
use crate::outcome::{End, Outcome, Sent};
use crate::pacing::Pace;
use crate::setting::{Fails, Setting};
use buffer_words::{Board, Pass};
use gev_links::{MemoryLink, MemoryPorts, MemorySink, Source, SteadySource};
use gev_program::gevacq_top;
use gev_types::{NoMemory, Peer};
use std::alloc::Global;
use std::sync::Wait;
use std::thread::Threads;

const CAMERA: Peer = Peer {
    address: 0x7f00_0001,
    port: 3956,
};

/// Another machine.
const STRANGER: Peer = Peer {
    address: 0x7f00_0002,
    port: 3956,
};

const HOST: Peer = Peer {
    address: 0x7f00_0001,
    port: 49_152,
};

/// How many datagrams the control link may send.
const ROOM: usize = 1000;

/// The most bytes of a datagram that is shown.
const SHOWN: usize = 24;

/// How the row's call ends, or behind it the replay of what it wrote.
pub fn run<R: Threads + Wait + Sync>(
    rt: &R,
    alloc: Global,
    words: &str,
    setting: &Setting,
) -> Result<Outcome, NoMemory> {
    let first = call(rt, alloc, words, setting.script.as_slice(), setting)?;
    if setting.replays {
        return call(rt, alloc, "replay", first.written.as_slice(), setting);
    }
    Ok(first)
}

/// The words of a text.
fn word_list(alloc: Global, text: &str) -> Result<Vec<String>, NoMemory> {
    let mut words = Vec::new(alloc);
    for word in text.split_whitespace() {
        words.push(String::from_str(alloc, word)?)?;
    }
    Ok(words)
}

/// What a link hears, each with its sender.
fn heard(alloc: Global, packets: &[Heard]) -> Result<Vec<Option<(&[u8], Peer)>>, NoMemory> {
    let mut all = Vec::new(alloc);
    for packet in packets {
        all.push(match packet {
            Heard::Nothing => None,
            Heard::Camera(bytes) => Some((bytes.as_slice(), CAMERA)),
            Heard::Stranger(bytes) => Some((bytes.as_slice(), STRANGER)),
        })?;
    }
    Ok(all)
}

/// The link of the control channel: the last one of three, or the first one of others.
fn control_of<'a, 'x>(links: &'a [MemoryLink<'x>]) -> Option<&'a MemoryLink<'x>> {
    match links {
        [_, _, control] => Some(control),
        _ => links.first(),
    }
}

/// The short datagrams that a link sent, and how many longer ones it did.
fn sent_by(alloc: Global, link: Option<&MemoryLink<'_>>) -> Result<(Vec<Sent>, u64), NoMemory> {
    let mut all = Vec::new(alloc);
    let Some(link) = link else {
        return Ok((all, 0));
    };
    let mut longer = 0u64;
    for (peer, bytes) in link.sent() {
        if bytes.as_slice().len() > SHOWN {
            longer = longer.saturating_add(1);
        } else {
            let digits = hex::encode(alloc, bytes.as_slice())?;
            all.push(Sent {
                peer: *peer,
                digits,
            })?;
        }
    }
    Ok((all, longer))
}

/// Ports whose stream's link and control link hear this, and whose host clock tells the row's moments. A run of three links
/// binds the camera's first and the control link last, and takes the host's clock second; all else has both first.
fn ports_of<'a>(
    alloc: Global,
    three: bool,
    stream: &'a [Option<(&'a [u8], Peer)>],
    control: &'a [Option<(&'a [u8], Peer)>],
    setting: &'a Setting,
) -> Result<MemoryPorts<'a, MemoryLink<'a>>, NoMemory> {
    let moments = setting.moments.as_slice();
    let fails = setting.fails;
    let camera = MemoryLink::new(alloc, CAMERA, &[], &[], &[], 0)?;
    let stream = MemoryLink::new(alloc, HOST, stream, fails.hear, &[], 0)?;
    let control = MemoryLink::new(alloc, HOST, control, fails.answer, fails.send, ROOM)?;
    if three {
        let clocks = [&[], moments, &[]];
        return MemoryPorts::new(alloc, camera, stream, control, clocks, fails.bind);
    }
    let clocks = [moments, &[], &[]];
    MemoryPorts::new(alloc, control, stream, camera, clocks, fails.bind)
}

/// The run word of the board that was kept, as the pass that was kept loads it.
fn run_word(kept: &mut Option<(Board, Pass)>) -> Option<u8>
    requires own { IfSome kept.old (λ k. k.1.table ≡ board_id k.0) }
{
    match kept {
        Some((board, pass)) => Some(board.look_run(pass)),
        None => None,
    }
}

/// How a call of these words ends.
fn call<R: Threads + Wait + Sync>(
    rt: &R,
    alloc: Global,
    words: &str,
    script: &[u8],
    setting: &Setting,
) -> Result<Outcome, NoMemory> {
    let words = word_list(alloc, words)?;
    let stream = heard(alloc, setting.stream.as_slice())?;
    let control = heard(alloc, setting.control.as_slice())?;
    call_over(
        rt,
        alloc,
        words.as_slice(),
        script,
        stream.as_slice(),
        control.as_slice(),
        setting,
    )
}

/// The same where the stream's link and the control link hear this.
fn call_over<R: Threads + Wait + Sync>(
    rt: &R,
    alloc: Global,
    words: &[String],
    script: &[u8],
    stream: &[Option<(&[u8], Peer)>],
    control: &[Option<(&[u8], Peer)>],
    setting: &Setting,
) -> Result<Outcome, NoMemory> {
    let mut ports = ports_of(alloc, is_live(words), stream, control, setting)?;
    let mut source = SteadySource::new(script, setting.piece);
    let mut sink = MemorySink::new(alloc, setting.piece, setting.fails.write);
    let end = end_of(
        rt,
        alloc,
        words,
        &mut source,
        &mut sink,
        &mut ports,
        setting,
    );
    outcome_of(alloc, end, source.has_ended(), &sink, &ports)
}

/// How the call ends over this source, this sink and these ports.
fn end_of<R: Threads + Wait + Sync>(
    rt: &R,
    alloc: Global,
    words: &[String],
    source: &mut SteadySource<'_>,
    sink: &mut MemorySink<'_>,
    ports: &mut MemoryPorts<'_, MemoryLink<'_>>,
    setting: &Setting,
) -> End {
    let gate = Pace::new(setting.pace.as_slice());
    let mut kept = None;
    let status = gevacq_top(rt, alloc, words, source, sink, ports, &gate, &mut kept);
    End {
        status,
        run: run_word(&mut kept),
        is_missed: gate.is_missed(),
    }
}

/// Whether these words are of a run with three links.
fn is_live(words: &[String]) -> bool {
    match words.first() {
        Some(word) => word.as_str() == "live" || word.as_str() == "record",
        None => false,
    }
}

/// What a call that ended so has left in its sink and its ports.
fn outcome_of(
    alloc: Global,
    end: End,
    ended: bool,
    sink: &MemorySink<'_>,
    ports: &MemoryPorts<'_, MemoryLink<'_>>,
) -> Result<Outcome, NoMemory> {
    let (sent, longer) = sent_by(alloc, control_of(ports.links()))?;
    Ok(Outcome {
        end,
        written: sink.written().to_vec(alloc)?,
        links: ports.links().len(),
        faults: ports.faults(),
        ended,
        sent,
        longer,
    })
}
