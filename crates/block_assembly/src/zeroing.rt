//! What no packet filled of a buffer, when its block retires.

ghost use Rattle.std.specs.Prelude.{◌≡◌, ◌+◌, ◌-◌, ◌≤◌, ◌<◌, min, length, replicate};
ghost use Rattle.gev_types.specs.Placing.{put_at};
ghost use Rattle.stream_packets.specs.FramePackets.{payload_start, payload_count};
ghost use Rattle.block_image.specs.Sizes.{IsPayloadSize};
ghost use Rattle.packet_bitmap.specs.Bits.{has};
ghost use Rattle.block_assembly.specs.PacketIds.{packet_ids};
ghost use Rattle.block_assembly.specs.Zeroed.{places_zeroed, Zeroes};

use crate::completing::last_payload;
use block_image::start_of_payload;
use gev_types::Buf;
use packet_bitmap::Bitmap;

/// Makes the places of the payloads from `first` to `last` zero.
fn zero_places(buf: &mut Buf, payload_size: u32, first: u32, last: u32)
    requires payload_size { IsPayloadSize payload_size }
    requires rises { first ≤ last }
    ensures bytes { buf.new.bytes ≡ places_zeroed payload_size first last buf.old.bytes }
    ensures rec { buf.new.rec ≡ buf.old.rec }
{
    let size = buf.bytes().len() as u64;
    let start = start_of_payload(payload_size, first).min(size) as u32;
    let end = (start_of_payload(payload_size, last) + u64::from(payload_size)).min(size) as u32;
    buf.zero(start, end - start);
}

/// Makes the place of each payload that wasn't kept zero.
pub(crate) fn zero_missing(buf: &mut Buf, kept: &Bitmap, payload_size: u32)
    requires payload_size { IsPayloadSize payload_size }
    requires wide { length kept.now ≡ packet_ids }
    ensures bytes { Zeroes (has kept.now) payload_size (payload_count payload_size (length buf.old.bytes) + 1) buf.old.bytes buf.new.bytes }
    ensures rec { buf.new.rec ≡ buf.old.rec }
{
    let last = last_payload(payload_size, buf.bytes().len() as u32);
    let mut from = 1;
    while from <= last {
        match kept.next_hole(from, last) {
            None => return,
            Some(range) => {
                zero_places(buf, payload_size, range.0, range.1);
                from = range.1 + 1;
            }
        }
    }
}
