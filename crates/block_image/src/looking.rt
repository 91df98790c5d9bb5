//! What a list of packets has, by a look at each of them.

ghost use Rattle.std.specs.Prelude.{◌≡◌, ◌+◌, ◌-◌, ◌<◌, ◌≤◌};
ghost use Rattle.gvsp_wire.specs.View.{views};
ghost use Rattle.block_image.specs.Kept.{has_id, has_trailer};
ghost use Rattle.block_image.specs.Image.{leader_in, lines_in, has_trailer_at};

use gvsp_wire::{LeaderInfo, Packet};

/// Whether some packet has this id.
pub(crate) fn contains_id(id: u32, packets: &[Packet<'_>]) -> bool
    ensures { result ≡ has_id id (views packets.now) }
{
    for packet in packets {
        if packet.head().id == id {
            return true;
        }
    }
    false
}

/// Whether some packet is a trailer.
pub(crate) fn contains_trailer(packets: &[Packet<'_>]) -> bool
    ensures { result ≡ has_trailer (views packets.now) }
{
    for packet in packets {
        if packet.is_trailer() {
            return true;
        }
    }
    false
}

/// Whether some packet is a trailer with this id.
pub(crate) fn contains_trailer_at(id: u64, packets: &[Packet<'_>]) -> bool
    ensures { result ≡ has_trailer_at id (views packets.now) }
{
    for packet in packets {
        if packet.is_trailer() && u64::from(packet.head().id) == id {
            return true;
        }
    }
    false
}

/// What the first leader says of the image.
pub(crate) fn first_leader(packets: &[Packet<'_>]) -> Option<LeaderInfo>
    ensures { result ≡ leader_in (views packets.now) }
{
    for packet in packets {
        let info = packet.leader_info();
        if info.is_some() {
            return info;
        }
    }
    None
}

/// How many lines the first trailer tells.
pub(crate) fn first_lines(packets: &[Packet<'_>]) -> Option<u32>
    ensures { result ≡ lines_in (views packets.now) }
{
    for packet in packets {
        let lines = packet.lines();
        if lines.is_some() {
            return lines;
        }
    }
    None
}
