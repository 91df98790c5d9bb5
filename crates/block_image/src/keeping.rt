//! Which packets of a list are kept of a block.

ghost use Rattle.std.specs.Prelude.{◌≡◌, ◌≤◌, IfOk};
ghost use Rattle.gvsp_wire.specs.View.{view, views};
ghost use Rattle.block_image.specs.Kept.{is_good_status, fits_payload, fits, takes, kept};

use crate::looking::{contains_id, contains_trailer};
use gev_types::{MAX_PACKET_ID, NoMemory};
use gvsp_wire::Packet;
use std::alloc::Global;

/// Sent first, or sent again.
fn is_stream_status(status: u16) -> bool
    ensures { result ≡ is_good_status status }
{
    status == 0x0000 || status == 0x0100
}

/// Whether the packet, if it is a payload, has at most `p` bytes.
#[tactic(auto, using(crate::proofs::Carried::fits_bytes, crate::proofs::Carried::fits_none))]
fn has_room(p: u32, packet: &Packet<'_>) -> bool
    ensures { result ≡ fits_payload p (view packet.now) }
{
    match packet.payload() {
        Some(bytes) => bytes.len() <= p as usize,
        None => true,
    }
}

/// Whether the packet fits by its status, its id and the length of its payload.
pub fn does_fit(p: u32, packet: &Packet<'_>) -> bool
    ensures { result ≡ fits p (view packet.now) }
{
    let head = packet.head();
    is_stream_status(head.status) && head.id <= MAX_PACKET_ID && has_room(p, packet)
}

/// Whether the packet is kept of the block, beside those that were kept before.
pub fn is_kept(p: u32, block: u64, before: &[Packet<'_>], packet: &Packet<'_>) -> bool
    ensures { result ≡ takes p block (views before.now) (view packet.now) }
{
    let head = packet.head();
    head.block == block
        && !packet.is_notice()
        && does_fit(p, packet)
        && !contains_id(head.id, before)
        && !(packet.is_trailer() && contains_trailer(before))
}

/// The packets that are kept of the block, in order of arrival. `p` is the stream's payload size in
/// bytes. The time is that of a look at each kept packet for each one that came.
pub fn kept_packets<'a>(
    alloc: Global,
    p: u32,
    block: u64,
    packets: &[Packet<'a>],
) -> Result<Vec<Packet<'a>>, NoMemory>
    ensures { IfOk result (λ ks. views ks.items ≡ kept p block (views packets.now)) }
{
    let mut ks = Vec::new(alloc);
    for packet in packets {
        if is_kept(p, block, &ks, packet) {
            ks.push(*packet)?;
        }
    }
    Ok(ks)
}
