ghost use Rattle.std.specs.Prelude.{◌≡◌, ◌≤◌, ◌+◌, ◌↔◌, [], length, IfOk, IfSome, IfNone, IsTrue, option_map};
ghost use Rattle.resend_store.specs.Sent.{IsSentFrame};
ghost use Rattle.resend_store.specs.Shelf.{oldest_out};
ghost use Rattle.camera_machine.specs.Stream.{new_stream, forgotten, dropped, frame_pushed, reply_queued, packet_given, first_waiting, all_waiting};
ghost use Rattle.camera_stream.specs.Writing.{packet_size, with_front};

use crate::queue::{clear, first_head, packet_count, push_reply, queued, rest_span};
use crate::span::{QueuedReply, Span};
use crate::writing::{next_reply, trailer_id, write_held};
use arrayvec::ArrayVec;
use gev_types::{Frame, NoMemory};
use gvcp_wire::Resend;
use resend_store::{SentFrame, Store};
use std::alloc::Global;
use std::marker::Model;

/// The bytes of the largest packet: a payload of 8,952 bytes behind its header.
pub const PACKET_ROOM: usize = 8972;

/// The frames that a camera holds, and the packets that wait to be sent: of the frame that was made
/// last, then of at most 64 replies to PACKETRESEND commands.
///
/// Contracts see the held frames and lists of packets. Only `new` takes memory; a packet is written
/// from its frame when it's given, and none is kept.
#[derive(Drop)]
pub struct CameraStream {
    store: Store,
    // What waits of the frame that was made last. It's made where nothing waits, so it comes first.
    frame: Option<Span>,
    replies: ArrayVec<QueuedReply, 64>,
}

impl Model for CameraStream {
    ghost use Rattle.camera_machine.specs.Stream.{StreamState};
    ghost use Rattle.camera_stream.specs.Spans.{state_of};
    ghost use Rattle.camera_stream.specs.Held.{IsStream};

    ghost Value = { StreamState };

    ghost view = { λ s. state_of s.store s.frame s.replies.items };

    ghost invariant = { λ s. IsStream s.store s.frame s.replies.items };
}

impl CameraStream {
    /// The stream of a camera that made no frame yet and holds the last `room` frames, 1 to 8.
    pub fn new(alloc: Global, room: u8) -> Result<CameraStream, NoMemory>
        requires some { 1 ≤ room }
        requires few { room ≤ 8 }
        ensures { IfOk result (λ stream. stream ≡ new_stream room) }
    {
        Ok(CameraStream {
            store: Store::new(alloc, room)?,
            frame: None,
            replies: ArrayVec::new(),
        })
    }

    /// Forgets all frames, and drops what waits: the channel opens again, and block ids begin at 1.
    pub fn forget(&mut self)
        ensures { self.new ≡ forgotten self.old }
    {
        self.store.clear();
        clear(&mut self.frame, &mut self.replies);
    }

    /// Drops what waits: the channel closes. The frames stay.
    pub fn drop_waiting(&mut self)
        ensures { self.new ≡ dropped self.old }
    {
        clear(&mut self.frame, &mut self.replies);
    }

    /// Adds the next frame, whose packets are given next. Nothing may wait (`is_idle`). The answer is
    /// the frame that fell out to make room, the oldest.
    pub fn push_frame(&mut self, sent: SentFrame) -> Option<Frame>
        requires idle { self.old.waiting ≡ [] }
        requires valid { IsSentFrame sent }
        // Block ids count the frames from 1 on.
        requires next { sent.frame.block ≡ self.old.shelf.count + 1 }
        ensures fallen { result ≡ option_map (λ fallen. fallen.frame) (oldest_out self.old.shelf.room self.old.shelf.frames) }
        ensures pushed { self.new ≡ frame_pushed self.old sent }
    {
        self.frame = Some(Span {
            block: sent.frame.block,
            next: 0,
            last: trailer_id(&sent),
        });
        let SentFrame {
            frame,
            payload_size,
        } = sent;
        self.store.push(frame, payload_size)
    }

    /// Lets the reply to a PACKETRESEND command wait, unless 64 do. What it's a reply to goes by the
    /// frames that are held now.
    pub fn reply(&mut self, resend: Resend)
        ensures { self.new ≡ reply_queued self.old resend }
    {
        let reply = self.store.reply(resend.first, resend.last, resend.block);
        push_reply(&mut self.replies, queued(resend, reply));
    }

    /// Writes the packet that waits first to the front of `out`, and leaves the bytes behind it. The
    /// answer is the packet's length in bytes, and None exactly where nothing waits.
    pub fn next_packet(&mut self, out: &mut [u8; PACKET_ROOM]) -> Option<usize>
        ensures len { result ≡ packet_size (first_waiting self.old.waiting) }
        ensures fits { IfSome result (λ len. len ≤ PACKET_ROOM) }
        ensures written { out.new ≡ with_front (first_waiting self.old.waiting) out.old }
        ensures given { self.new ≡ packet_given self.old }
        ensures none { IfNone result (self.old.waiting ≡ []) }
    {
        match self.frame {
            Some(span) => {
                let len = write_held(&self.store, first_head(span), out);
                self.frame = rest_span(span);
                len
            }
            None => next_reply(&self.store, &mut self.replies, out),
        }
    }

    /// How many packets wait.
    pub fn waiting_count(&self) -> usize
        ensures { result ≡ length (all_waiting self.now.waiting) }
    {
        packet_count(self.frame, self.replies.as_slice())
    }

    /// Whether nothing waits.
    pub fn is_idle(&self) -> bool
        ensures { IsTrue result ↔ (self.now.waiting ≡ []) }
    {
        self.frame.is_none() && self.replies.is_empty()
    }

    /// How many frames were made since the channel opened, which is the last block id.
    pub fn frame_count(&self) -> u64
        ensures { result ≡ self.now.shelf.count }
    {
        self.store.count()
    }
}
