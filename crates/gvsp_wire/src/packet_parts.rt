ghost use Rattle.std.specs.Prelude.{◌≡◌};
ghost use Rattle.std.specs.Option.{option_copied};
ghost use Rattle.stream_packets.specs.Packets.{head_of, is_trailer, is_notice, carried_info, carried_bytes, carried_lines};
ghost use Rattle.gvsp_wire.specs.View.{view};

use crate::packet::Packet;
use stream_packets::{Head, LeaderInfo};

impl<'a> Packet<'a> {
    /// The packet's header.
    pub fn head(&self) -> Head
        ensures { result ≡ head_of (view self.now) }
    {
        match *self {
            Packet::Leader(head, _) => head,
            Packet::Payload(head, _) => head,
            Packet::Trailer(head, _) => head,
            Packet::Notice(head) => head,
        }
    }

    /// What the packet says of the image, if it is a leader.
    pub fn leader_info(&self) -> Option<LeaderInfo>
        ensures { result ≡ carried_info (view self.now) }
    {
        match *self {
            Packet::Leader(_, info) => Some(info),
            Packet::Payload(_, _) => None,
            Packet::Trailer(_, _) => None,
            Packet::Notice(_) => None,
        }
    }

    /// The bytes of the image that the packet carries, if it is a payload. They are the datagram's.
    pub fn payload(&self) -> Option<&'a [u8]>
        ensures { option_copied result ≡ carried_bytes (view self.now) }
    {
        match *self {
            Packet::Leader(_, _) => None,
            Packet::Payload(_, bytes) => Some(bytes),
            Packet::Trailer(_, _) => None,
            Packet::Notice(_) => None,
        }
    }

    /// How many lines the packet says that the image has, if it is a trailer.
    pub fn lines(&self) -> Option<u32>
        ensures { result ≡ carried_lines (view self.now) }
    {
        match *self {
            Packet::Leader(_, _) => None,
            Packet::Payload(_, _) => None,
            Packet::Trailer(_, lines) => Some(lines),
            Packet::Notice(_) => None,
        }
    }

    /// Whether the packet is a trailer, which ends its block.
    pub fn is_trailer(&self) -> bool
        ensures { result ≡ is_trailer (view self.now) }
    {
        matches!(self, Packet::Trailer(_, _))
    }

    /// Whether the packet is a notice, by which the camera says that it can't send a packet again.
    pub fn is_notice(&self) -> bool
        ensures { result ≡ is_notice (view self.now) }
    {
        matches!(self, Packet::Notice(_))
    }
}
