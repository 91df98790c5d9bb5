//! Whether the image is whole, and up to which id its block goes.

ghost use Rattle.std.specs.Prelude.{◌≡◌, ◌+◌, ◌-◌, ◌≤◌, ◌<◌, true, List, Some, IfSome};
ghost use Rattle.gev_types.specs.Limits.{max_packet_id, max_buffer_size};
ghost use Rattle.stream_packets.specs.Packets.{StreamPacket};
ghost use Rattle.stream_packets.specs.FramePackets.{payload_count, payload_start};
ghost use Rattle.block_image.specs.Extent.{extent_of};
ghost use Rattle.block_image.specs.Kept.{has_id};
ghost use Rattle.block_image.specs.Image.{is_complete, has_image, has_payloads, has_trailer_at, extent_in};
ghost use Rattle.block_image.specs.Sizes.{IsPayloadSize};
ghost use Rattle.missing_ranges.specs.Missing.{top_of};
ghost use Rattle.block_assembly.specs.Shortest.{are_long};
ghost use Rattle.block_assembly.specs.Assembly.{IsAssembly, IsSound, is_trailer_id, lines_of};

use crate::progress::{Ending, Progress, Short};
use block_image::{count_payloads, extent_of, start_of_payload};

/// How many lines the kept trailer tells.
pub(crate) fn lines_of(trailer: Option<Ending>) -> Option<u32>
    ensures { result ≡ lines_of trailer }
{
    match trailer {
        Some(ending) => Some(ending.lines),
        None => None,
    }
}

/// The length of the image in bytes, where it is known: by the leader, and by the trailer if that was
/// kept too.
pub(crate) fn extent(assembly: &Progress) -> Option<u32>
    requires { IsSound assembly.now }
    ensures value { result ≡ extent_of assembly.now.leader (lines_of assembly.now.trailer) }
    ensures within { IfSome result (λ len. len ≤ max_buffer_size) }
{
    extent_of(assembly.leader, lines_of(assembly.trailer))
}

/// Whether this is the kept trailer's id.
pub(crate) fn is_trailer_id(trailer: Option<Ending>, id: u32) -> bool
    ensures { result ≡ is_trailer_id trailer id }
{
    match trailer {
        Some(ending) => ending.id == id,
        None => false,
    }
}

/// Whether the payloads up to the `last` one of the image are as long as they have to be, if all of
/// them are there. The last one has `rest` bytes or more.
pub(crate) fn are_long(last: u32, rest: u64, shortest: Option<Short>) -> bool
    ensures { result ≡ are_long last rest shortest }
{
    match shortest {
        Some(short) => last < short.id || short.id == last && rest <= u64::from(short.len),
        None => true,
    }
}

/// Whether all payloads of an image of `len` bytes were kept, of which there are `last`, beside its
/// leader and its trailer. No more than this is counted: fewer packets than an image needs can't hold
/// it, and only where there are enough the bits are looked at.
fn has_payloads(assembly: &Progress, len: u32, last: u32) -> bool
    requires sound { IsSound assembly.now }
    requires last { last ≡ payload_count assembly.now.payload_size len }
    requires in_range { last + 1 ≤ max_packet_id }
    ensures { (ks : List StreamPacket) → IsAssembly assembly.now ks → has_id 0 ks ≡ true
        → has_trailer_at (last + 1) ks ≡ true
        → result ≡ has_payloads assembly.now.payload_size len last ks }
{
    let rest = u64::from(len).saturating_sub(start_of_payload(assembly.payload_size, last));
    last + 2 <= assembly.count
        && assembly.kept.covers(last + 1)
        && are_long(last, rest, assembly.shortest)
}

/// How many payloads carry an image of `len` bytes.
pub(crate) fn last_payload(payload_size: u32, len: u32) -> u32
    requires payload_size { IsPayloadSize payload_size }
    requires len { len ≤ max_buffer_size }
    ensures value { result ≡ payload_count payload_size len }
    ensures in_range { result + 1 ≤ max_packet_id }
{
    count_payloads(payload_size, len) as u32
}

/// Whether the whole image of `len` bytes is in the buffer, and the trailer comes next.
fn has_image(assembly: &Progress, len: u32) -> bool
    requires sound { IsSound assembly.now }
    requires len { len ≤ max_buffer_size }
    ensures { (ks : List StreamPacket) → IsAssembly assembly.now ks → has_id 0 ks ≡ true
        → result ≡ has_image assembly.now.payload_size assembly.now.size len ks }
{
    let last = last_payload(assembly.payload_size, len);
    len <= assembly.size
        && is_trailer_id(assembly.trailer, last + 1)
        && has_payloads(assembly, len, last)
}

/// Whether the block is complete.
pub(crate) fn completes(assembly: &Progress) -> bool
    requires { IsSound assembly.now }
    ensures { (ks : List StreamPacket) → IsAssembly assembly.now ks
        → result ≡ is_complete assembly.now.payload_size assembly.now.size ks (extent_in ks) }
{
    match extent(assembly) {
        Some(len) => has_image(assembly, len),
        None => false,
    }
}

/// The last id up to which packets may be missing.
pub(crate) fn top(assembly: &Progress) -> Option<u32>
    requires { IsSound assembly.now }
    ensures value { (ks : List StreamPacket) → IsAssembly assembly.now ks → result ≡ top_of assembly.now.payload_size ks }
    ensures within { (ks : List StreamPacket) → IsAssembly assembly.now ks → IfSome result (λ top. top ≤ max_packet_id) }
{
    match extent(assembly) {
        Some(len) => Some(last_payload(assembly.payload_size, len) + 1),
        None => assembly.highest,
    }
}
