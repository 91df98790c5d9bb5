//! What some packets of a stream with payloads of 528 bytes give of a block, by the plain program: which are kept, and the
//! image.

ghost use Rattle.std.specs.Prelude.{◌≡◌, true};
ghost use Rattle.gvsp_wire.specs.View.{view, views};
ghost use Rattle.block_image.specs.KeptFacts.{TellsSize, DoLeadersTellSizes};

use crate::words::{bytes_of, number, number32};
use block_image::{block_image, kept_packets, tells_its_size};
use gev_types::{Buf, MAX_BUFFER_SIZE};
use gvsp_wire::{Packet, parse};
use std::alloc::Global;
use std::fmt::Write;
use std::str::SplitWhitespace;

/// Whether the packet, if it is a leader, tells the size of its image, as each one that was read does.
fn tells_size(packet: &Packet<'_>) -> bool
    ensures { result ≡ true → TellsSize (view packet.now) }
{
    match *packet {
        Packet::Leader(_, info) => tells_its_size(info),
        Packet::Payload(_, _) => true,
        Packet::Trailer(_, _) => true,
        Packet::Notice(_) => true,
    }
}

/// Whether each leader does.
fn tell_sizes(packets: &[Packet<'_>]) -> bool
    ensures { result ≡ true → DoLeadersTellSizes (views packets.now) }
{
    for packet in packets {
        if !tells_size(packet) {
            return false;
        }
    }
    true
}

/// The datagrams of the words that are left.
fn datagrams(alloc: Global, words: &mut SplitWhitespace<'_>) -> Option<Vec<Vec<u8>>> {
    let mut all = Vec::new(alloc);
    for word in words {
        all.push(bytes_of(alloc, word)?).ok()?;
    }
    Some(all)
}

/// The packets that these datagrams are.
fn packets_of(alloc: Global, datagrams: &[Vec<u8>]) -> Option<Vec<Packet<'_>>> {
    let mut packets = Vec::new(alloc);
    for bytes in datagrams {
        packets.push(parse(bytes.as_slice()).ok()?).ok()?;
    }
    Some(packets)
}

/// A block, the size of a buffer, and datagrams: the record and the bytes of the block's image in such a buffer.
pub fn image(alloc: Global, words: &mut SplitWhitespace<'_>) -> Option<String> {
    let block = number(words)?;
    let size = number32(words)?;
    let datagrams = datagrams(alloc, words)?;
    let packets = packets_of(alloc, datagrams.as_slice())?;
    image_of(alloc, block, size, packets.as_slice())
}

/// The record and the bytes of the image of these packets.
fn image_of(alloc: Global, block: u64, size: u32, packets: &[Packet<'_>]) -> Option<String> {
    if size < 1 || MAX_BUFFER_SIZE < size || !tell_sizes(packets) {
        return None;
    }
    let buf = block_image(alloc, 528, block, size, packets).ok()?;
    text_of(alloc, &buf)
}

/// The record of a buffer, and its bytes.
fn text_of(alloc: Global, buf: &Buf) -> Option<String> {
    let mut text = format!(in alloc; "{:?}", buf.rec()).ok()?;
    let mut run: Option<(u8, u32)> = None;
    for byte in buf.bytes() {
        run = match run {
            Some((last, count)) if last == *byte => Some((last, count.saturating_add(1))),
            _ => {
                add_run(&mut text, run)?;
                Some((*byte, 1))
            }
        };
    }
    add_run(&mut text, run)?;
    Some(text)
}

/// Equal bytes, as `61` or as `61*528`.
fn add_run(text: &mut String, run: Option<(u8, u32)>) -> Option<()> {
    match run {
        None => Some(()),
        Some((byte, 1)) => write!(text, " {byte:02x}").ok(),
        Some((byte, count)) => write!(text, " {byte:02x}*{count}").ok(),
    }
}

/// A block and datagrams: the ids of the packets that are kept of it.
pub fn kept(alloc: Global, words: &mut SplitWhitespace<'_>) -> Option<String> {
    let block = number(words)?;
    let datagrams = datagrams(alloc, words)?;
    let packets = packets_of(alloc, datagrams.as_slice())?;
    let kept = kept_packets(alloc, 528, block, packets.as_slice()).ok()?;
    let mut ids = String::new(alloc);
    for packet in kept.as_slice() {
        write!(ids, " {}", packet.head().id).ok()?;
    }
    String::from_str(alloc, ids.trim_start()).ok()
}
