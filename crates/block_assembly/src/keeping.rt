//! What a packet changes.

ghost use Rattle.std.specs.Prelude.{◌≡◌, ◌≤◌, ◌<◌, ◌||◌, true, length};
ghost use Rattle.gvsp_wire.specs.View.{view};
ghost use Rattle.block_image.specs.Kept.{fits};
ghost use Rattle.missing_ranges.specs.Missing.{higher};
ghost use Rattle.block_assembly.specs.PacketIds.{packet_ids};
ghost use Rattle.block_assembly.specs.Shortest.{lower_short, shortest_with};
ghost use Rattle.block_assembly.specs.Assembly.{IsSound};
ghost use Rattle.block_assembly.specs.Verdicts.{IsRead};
ghost use Rattle.block_assembly.specs.Steps.{emptied, marked, with_leader, with_trailer, with_payload, with_packet, noted, acted};

use crate::progress::{Ending, Progress, Short};
use crate::span::span_of;
use crate::verdict::Verdict;
use block_image::start_of_payload;
use gev_types::MAX_PACKET_ID;
use gvsp_wire::{Head, LeaderInfo, Packet};

/// The status by which the camera says that a packet isn't there yet. It may be asked for again.
const NOT_YET_AVAILABLE: u16 = 0x8010;

/// The higher of an id and the highest of others.
fn higher(id: u32, highest: Option<u32>) -> u32
    ensures { result ≡ higher id highest }
{
    match highest {
        Some(most) => id.max(most),
        None => id,
    }
}

/// Marks an id as kept.
fn mark(assembly: &mut Progress, id: u32)
    requires { id < length assembly.old.kept }
    ensures { assembly.new ≡ marked assembly.old id }
{
    assembly.kept.set(id);
    assembly.count = assembly.count.saturating_add(1);
    assembly.highest = Some(higher(id, assembly.highest));
}

/// Keeps a leader.
fn keep_leader(assembly: &mut Progress, head: Head, info: LeaderInfo)
    requires { head.id < length assembly.old.kept }
    ensures { assembly.new ≡ with_leader assembly.old head info }
{
    mark(assembly, head.id);
    assembly.leader = Some(info);
}

/// Makes the place of a payload zero.
fn empty(assembly: &mut Progress, id: u32)
    requires { IsSound assembly.old }
    ensures { assembly.new ≡ emptied assembly.old id }
{
    if id >= 1 {
        let start = start_of_payload(assembly.payload_size, id);
        let start = start.min(u64::from(assembly.size)) as u32;
        assembly.buf.zero(start, assembly.payload_size);
    }
}

/// Keeps a trailer.
fn keep_trailer(assembly: &mut Progress, head: Head, lines: u32)
    requires sound { IsSound assembly.old }
    requires id { head.id < length assembly.old.kept }
    ensures { assembly.new ≡ with_trailer assembly.old head lines }
{
    empty(assembly, head.id);
    mark(assembly, head.id);
    assembly.trailer = Some(Ending { id: head.id, lines });
}

/// The short payload with the lower id.
fn lower_short(new: Short, shortest: Option<Short>) -> Short
    ensures { lower_short new shortest ≡ Some result }
{
    match shortest {
        Some(short) => { if new.id < short.id { new } else { short } }
        None => new,
    }
}

/// The short payload with the lowest id, after one more payload.
fn shortest_with(payload_size: u32, new: Short, shortest: Option<Short>) -> Option<Short>
    ensures { result ≡ shortest_with payload_size new shortest }
{
    if new.len < payload_size {
        Some(lower_short(new, shortest))
    } else {
        shortest
    }
}

/// Whether one of two payloads reaches past the buffer.
fn either(before: bool, past: bool) -> bool
    ensures { result ≡ (before || past) }
{
    before || past
}

/// Keeps a payload: puts its bytes into its place, and zeros behind them there.
fn keep_payload(assembly: &mut Progress, head: Head, bytes: &[u8])
    requires sound { IsSound assembly.old }
    requires id { head.id < length assembly.old.kept }
    requires some { 1 ≤ length bytes.now }
    requires short { length bytes.now ≤ assembly.old.payload_size }
    ensures { assembly.new ≡ with_payload assembly.old head bytes.now }
{
    let payload_size = assembly.payload_size;
    let span = span_of(payload_size, assembly.size, head.id, bytes.len());
    let len = bytes.len() as u32;
    assembly.buf.put(span.start, bytes);
    assembly.buf.zero(span.rest, payload_size - len);
    assembly.placed += span.count;
    assembly.end = assembly.end.max(span.end);
    assembly.past = either(assembly.past, span.past);
    let new = Short { id: head.id, len };
    assembly.shortest = shortest_with(payload_size, new, assembly.shortest);
    mark(assembly, head.id);
}

/// Keeps a packet.
fn keep(assembly: &mut Progress, packet: &Packet<'_>)
    requires sound { IsSound assembly.old }
    requires read { IsRead (view packet.now) }
    requires fits { fits assembly.old.payload_size (view packet.now) ≡ true }
    ensures { assembly.new ≡ with_packet assembly.old (view packet.now) }
{
    match *packet {
        Packet::Leader(head, info) => keep_leader(assembly, head, info),
        Packet::Payload(head, bytes) => keep_payload(assembly, head, bytes),
        Packet::Trailer(head, lines) => keep_trailer(assembly, head, lines),
        Packet::Notice(_) => {}
    }
}

/// Notes that the camera can't send a packet again, where the notice says so.
fn note(assembly: &mut Progress, head: Head)
    requires { length assembly.old.refused ≡ packet_ids }
    ensures { assembly.new ≡ noted assembly.old head }
{
    if head.status != NOT_YET_AVAILABLE && head.id <= MAX_PACKET_ID {
        assembly.refused.set(head.id);
    }
}

/// Does what follows of a verdict.
pub(crate) fn act(assembly: &mut Progress, verdict: Verdict, packet: &Packet<'_>)
    requires sound { IsSound assembly.old }
    requires read { IsRead (view packet.now) }
    requires fits { verdict ≡ Verdict.Kept → fits assembly.old.payload_size (view packet.now) ≡ true }
    ensures { assembly.new ≡ acted verdict assembly.old (view packet.now) }
{
    match verdict {
        Verdict::Kept => keep(assembly, packet),
        Verdict::Notice => note(assembly, packet.head()),
        Verdict::Misfit => {}
        Verdict::Repeat => {}
    }
}
