//! The block image, computed position by position.

ghost use Rattle.std.specs.Prelude.{◌≡◌, ◌+◌, ◌-◌, ◌*◌, ◌^◌, ◌<◌, ◌≤◌, [], ◌∷◌, ◌++◌, length, min, replicate, IfOk};
ghost use Rattle.stream_packets.specs.FramePackets.{payload_start};
ghost use Rattle.gvsp_wire.specs.View.{view, views};
ghost use Rattle.block_image.specs.Sizes.{IsPayloadSize, IsBufferSize};
ghost use Rattle.block_image.specs.Extent.{TellsSizeIfLeader};
ghost use Rattle.block_image.specs.Kept.{kept};
ghost use Rattle.block_image.specs.KeptFacts.{DoLeadersTellSizes};
ghost use Rattle.block_image.specs.Image.{byte_from, placed, image_bytes, placed_count, placed_end, leader_in, record_of, filling_of, image};

use crate::extents::{extent_of, info_of};
use crate::keeping::kept_packets;
use crate::looking::{first_leader, first_lines};
use crate::records::{completes, outgrows, start_of_payload};
use gev_types::{Buf, NoMemory, Record};
use gvsp_wire::Packet;
use std::alloc::Global;

/// The byte that the packet puts at this position of the image, if it does.
#[tactic(auto, using(crate::proofs::Carried::byte_bytes, crate::proofs::Carried::byte_none))]
fn byte_of(p: u32, packet: &Packet<'_>, position: u32) -> Option<u8>
    requires { IsPayloadSize p }
    ensures { result ≡ byte_from p (view packet.now) position }
{
    let bytes = packet.payload()?;
    let start = start_of_payload(p, packet.head().id);
    let position = u64::from(position);
    if position < start || position - start >= bytes.len() as u64 {
        return None;
    }
    Some(bytes[(position - start) as usize])
}

/// The byte that the kept packets put there, if one does.
fn byte_at(p: u32, kept: &[Packet<'_>], position: u32) -> Option<u8>
    requires { IsPayloadSize p }
    ensures { result ≡ placed p (views kept.now) position }
{
    for packet in kept {
        let byte = byte_of(p, packet, position);
        if byte.is_some() {
            return byte;
        }
    }
    None
}

/// How many positions were placed, and the end of the highest one.
#[derive(Clone, Copy)]
struct Placed {
    count: u32,
    end: u32,
}

/// Writes each placed byte into the buffer, which holds zeros.
fn place(p: u32, kept: &[Packet<'_>], size: u32, buf: &mut Buf) -> Placed
    requires payload_size { IsPayloadSize p }
    requires zeros { buf.old.bytes ≡ replicate size 0 }
    ensures bytes { buf.new.bytes ≡ image_bytes p (views kept.now) size }
    ensures rec { buf.new.rec ≡ buf.old.rec }
    ensures count { result.count ≡ placed_count p (views kept.now) size }
    ensures end { result.end ≡ placed_end p (views kept.now) size }
{
    let mut count = 0;
    let mut end = 0;
    for position in 0..size {
        if let Some(byte) = byte_at(p, kept, position) {
            buf.put(position, &[byte]);
            count += 1;
            end = position + 1;
        }
    }
    Placed { count, end }
}

/// The record of the block, by its kept packets and what they placed.
fn record_with(p: u32, block: u64, size: u32, kept: &[Packet<'_>], placed: Placed) -> Record
    requires payload_size { IsPayloadSize p }
    requires count { placed.count ≡ placed_count p (views kept.now) size }
    requires end { placed.end ≡ placed_end p (views kept.now) size }
    requires told { TellsSizeIfLeader (leader_in (views kept.now)) }
    ensures { result ≡ record_of p block size (views kept.now) }
{
    let leader = first_leader(kept);
    let lines = first_lines(kept);
    let extent = extent_of(leader, lines);
    Record {
        block,
        complete: completes(p, size, kept, extent),
        larger: outgrows(p, size, kept, extent),
        has_leader: leader.is_some(),
        data_len: extent.map_or(placed.end, |len| len.min(size)),
        filled: placed.count,
        image: info_of(leader, lines),
        account: None,
    }
}

/// What these packets, in order of arrival, give of the block in a buffer of `size` bytes. `p` is the
/// stream's payload size in bytes.
///
/// Each leader tells the size of its image, as `gvsp_wire::parse` sees to. The time is that of a look
/// at each kept packet for each byte of the buffer.
pub fn block_image(
    alloc: Global,
    p: u32,
    block: u64,
    size: u32,
    packets: &[Packet<'_>],
) -> Result<Buf, NoMemory>
    requires payload_size { IsPayloadSize p }
    requires buffer_size { IsBufferSize size }
    requires told { DoLeadersTellSizes (views packets.now) }
    ensures { IfOk result (λ buf. buf ≡ image p block size (views packets.now)) }
{
    let kept = kept_packets(alloc, p, block, packets)?;
    let mut buf = Buf::new(alloc, size)?;
    let placed = place(p, &kept, size, &mut buf);
    buf.set_rec(record_with(p, block, size, &kept, placed));
    Ok(buf)
}
