//! Packets as bytes, straight from the frame that is held.

ghost use Rattle.std.specs.Prelude.{◌≡◌, ◌≤◌, ◌<◌, ◌++◌, length, drop, take, All, IfSome};
ghost use Rattle.gev_types.specs.FrameSize.{IsFrame};
ghost use Rattle.gvsp_wire.specs.Wire.{IsNotice};
ghost use Rattle.gvsp_wire.specs.Plain.{plain};
ghost use Rattle.resend_store.specs.Sent.{trailer_id, IsSentFrame};
ghost use Rattle.resend_store.specs.Shelf.{held_in};
ghost use Rattle.camera_machine.specs.Stream.{again_head};
ghost use Rattle.camera_stream.specs.Held.{IsHeldReply};
ghost use Rattle.camera_stream.specs.Queue.{after_reply};
ghost use Rattle.camera_stream.specs.Writing.{packet_of, held_packet, first_reply, packet_size, with_front};

use crate::queue::{first_head, step_replies};
use crate::span::QueuedReply;
use crate::stream::PACKET_ROOM;
use arrayvec::ArrayVec;
use gev_types::{Frame, MAX_PAYLOAD_SIZE};
use gvcp_wire::Status;
use gvsp_wire::{write_leader, write_notice, write_payload, write_trailer};
use resend_store::{SentFrame, Store};
use stream_packets::{Head, leader_info};

// The packet id of the frame's last packet.
pub(crate) fn trailer_id(sent: &SentFrame) -> u32
    requires { IsSentFrame sent.now }
    ensures { result ≡ trailer_id sent.now }
{
    let len = sent.frame.pixels.as_slice().len();
    let payload_size = sent.payload_size as usize;
    ((len + payload_size - 1) / payload_size + 1) as u32
}

// So many bytes from a place on, or all that are there.
fn part(bytes: &[u8], start: usize, size: usize) -> &[u8]
    requires { start < length bytes.now }
    ensures { result.now ≡ take size (drop start bytes.now) }
{
    let rest = &bytes[start..];
    if rest.len() < size {
        rest
    } else {
        &rest[..size]
    }
}

// Writes the frame's packet with this header.
fn write_packet(frame: &Frame, payload_size: u32, head: Head, out: &mut [u8]) -> usize
    requires valid { IsFrame frame.now }
    requires some { 1 ≤ payload_size }
    requires at_most { payload_size ≤ MAX_PAYLOAD_SIZE }
    requires block { 1 ≤ head.block }
    requires no_notice { IsNotice head → ⊥ }
    requires room { PACKET_ROOM ≤ length out.old }
    ensures written { let x = plain (packet_of frame.now payload_size head) in out.new ≡ x ++ drop (length x) out.old }
    ensures len { result ≡ length (plain (packet_of frame.now payload_size head)) }
    ensures fits { result ≤ PACKET_ROOM }
{
    if head.id == 0 {
        return write_leader(out, head, leader_info(frame));
    }
    let pixels = frame.pixels.as_slice();
    let start = (head.id - 1) as usize * payload_size as usize;
    if start >= pixels.len() {
        return write_trailer(out, head, frame.rows);
    }
    write_payload(out, head, part(pixels, start, payload_size as usize))
}

// Writes the packet with this header, where its frame is held. The answer is its length.
pub(crate) fn write_held(store: &Store, head: Head, out: &mut [u8]) -> Option<usize>
    requires no_notice { IsNotice head → ⊥ }
    requires room { PACKET_ROOM ≤ length out.old }
    ensures written { out.new ≡ with_front (held_packet (held_in store.now head.block) head) out.old }
    ensures len { result ≡ packet_size (held_packet (held_in store.now head.block) head) }
    ensures fits { IfSome result (λ len. len ≤ PACKET_ROOM) }
{
    let frame = store.frame(head.block)?;
    let payload_size = store.payload_size(head.block)?;
    Some(write_packet(frame, payload_size, head, out))
}

// Writes the first packet of the replies, and takes it from them. The answer is its length.
pub(crate) fn next_reply(
    store: &Store,
    replies: &mut ArrayVec<QueuedReply, 64>,
    out: &mut [u8],
) -> Option<usize>
    requires held { All (IsHeldReply store.now) replies.old.items }
    requires room { PACKET_ROOM ≤ length out.old }
    ensures written { out.new ≡ with_front (first_reply store.now replies.old.items) out.old }
    ensures len { result ≡ packet_size (first_reply store.now replies.old.items) }
    ensures fits { IfSome result (λ len. len ≤ PACKET_ROOM) }
    ensures rest { replies.new.items ≡ after_reply replies.old.items }
{
    let len = write_reply(store, replies.as_slice(), out);
    step_replies(replies);
    len
}

fn write_reply(store: &Store, replies: &[QueuedReply], out: &mut [u8]) -> Option<usize>
    requires held { All (IsHeldReply store.now) replies.now }
    requires room { PACKET_ROOM ≤ length out.old }
    ensures written { out.new ≡ with_front (first_reply store.now replies.now) out.old }
    ensures len { result ≡ packet_size (first_reply store.now replies.now) }
    ensures fits { IfSome result (λ len. len ≤ PACKET_ROOM) }
{
    match replies {
        [] => None,
        [QueuedReply::Packets(span), ..] => {
            let head = Head {
                status: Status::PacketResend.code(),
                flags: 1,
                ..first_head(*span)
            };
            write_held(store, head, out)
        }
        [QueuedReply::Notice(head), ..] => Some(write_notice(out, *head)),
    }
}
