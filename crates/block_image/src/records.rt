//! What is known of a block by its kept packets.

ghost use Rattle.std.specs.Prelude.{◌≡◌, ◌+◌, ◌-◌, ◌*◌, ◌/◌, ◌^◌, ◌<◌, ◌≤◌, [], ◌∷◌};
ghost use Rattle.stream_packets.specs.FramePackets.{payload_count, payload_start};
ghost use Rattle.gvsp_wire.specs.View.{view, views};
ghost use Rattle.block_image.specs.Sizes.{IsPayloadSize};
ghost use Rattle.block_image.specs.Image.{is_long_enough, has_payload, has_payloads, has_image, is_complete, reaches_past, is_larger};

use crate::looking::contains_trailer_at;
use gvsp_wire::Packet;

/// How many payloads carry `len` bytes, `p` at a time.
pub fn count_payloads(p: u32, len: u32) -> u64
    requires { IsPayloadSize p }
    ensures count { result ≡ payload_count p len }
    ensures in_range { result < 2 ^ 32 }
{
    (u64::from(len) + u64::from(p) - 1) / u64::from(p)
}

/// Where the bytes of the payload with this id stand in the image.
pub fn start_of_payload(p: u32, id: u32) -> u64
    requires { IsPayloadSize p }
    ensures { result ≡ payload_start p id }
{
    u64::from(id.saturating_sub(1)) * u64::from(p)
}

/// Whether the payload with this id, of an image of `len` bytes, is as long as it has to be with
/// `got` bytes.
pub fn has_its_bytes(p: u32, len: u32, id: u32, got: usize) -> bool
    requires { IsPayloadSize p }
    ensures { result ≡ is_long_enough p len id got }
{
    if u64::from(id) < count_payloads(p, len) {
        got == p as usize
    } else {
        u64::from(len).saturating_sub(start_of_payload(p, id)) <= got as u64
    }
}

/// Whether payload `k` was kept and is as long as it has to be.
fn contains_payload(p: u32, len: u32, k: u64, kept: &[Packet<'_>]) -> bool
    requires { IsPayloadSize p }
    ensures { result ≡ has_payload p len k (views kept.now) }
{
    for packet in kept {
        if is_payload(p, len, k, packet) {
            return true;
        }
    }
    false
}

/// Whether the payloads from 1 to `n` were.
fn contains_payloads(p: u32, len: u32, n: u64, kept: &[Packet<'_>]) -> bool
    requires { IsPayloadSize p }
    ensures { result ≡ has_payloads p len n (views kept.now) }
{
    for k in 0..n {
        if !contains_payload(p, len, k + 1, kept) {
            return false;
        }
    }
    true
}

/// Whether the packet is payload `k` and is as long as it has to be.
#[tactic(auto, using(crate::proofs::Carried::payload_bytes, crate::proofs::Carried::payload_none))]
fn is_payload(p: u32, len: u32, k: u64, packet: &Packet<'_>) -> bool
    requires { IsPayloadSize p }
    ensures { result ≡ has_payload p len k (view packet.now ∷ []) }
{
    let Some(bytes) = packet.payload() else {
        return false;
    };
    let id = packet.head().id;
    u64::from(id) == k && has_its_bytes(p, len, id, bytes.len())
}

/// Whether the whole image of `len` bytes was kept and goes into the buffer.
fn contains_image(p: u32, size: u32, len: u32, kept: &[Packet<'_>]) -> bool
    requires { IsPayloadSize p }
    ensures { result ≡ has_image p size len (views kept.now) }
{
    let n = count_payloads(p, len);
    len <= size && contains_trailer_at(n + 1, kept) && contains_payloads(p, len, n, kept)
}

/// Whether the block is complete, by the length of its image, where that is known.
pub(crate) fn completes(p: u32, size: u32, kept: &[Packet<'_>], extent: Option<u32>) -> bool
    requires { IsPayloadSize p }
    ensures { result ≡ is_complete p size (views kept.now) extent }
{
    match extent {
        Some(len) => contains_image(p, size, len, kept),
        None => false,
    }
}

/// Whether the packet is a payload that reaches past the buffer.
#[tactic(auto, using(crate::proofs::Carried::past_bytes, crate::proofs::Carried::past_none))]
fn ends_past(p: u32, size: u32, packet: &Packet<'_>) -> bool
    requires { IsPayloadSize p }
    ensures { result ≡ reaches_past p size (view packet.now ∷ []) }
{
    let Some(bytes) = packet.payload() else {
        return false;
    };
    let start = start_of_payload(p, packet.head().id);
    u64::from(size) < start || u64::from(size) - start < bytes.len() as u64
}

/// Whether some payload reaches past the buffer.
fn some_ends_past(p: u32, size: u32, kept: &[Packet<'_>]) -> bool
    requires { IsPayloadSize p }
    ensures { result ≡ reaches_past p size (views kept.now) }
{
    for packet in kept {
        if ends_past(p, size, packet) {
            return true;
        }
    }
    false
}

/// Whether the block has more bytes than the buffer: its image, or where the length of that isn't
/// known, some payload.
pub(crate) fn outgrows(p: u32, size: u32, kept: &[Packet<'_>], extent: Option<u32>) -> bool
    requires { IsPayloadSize p }
    ensures { result ≡ is_larger p size (views kept.now) extent }
{
    match extent {
        Some(len) => size < len,
        None => some_ends_past(p, size, kept),
    }
}
