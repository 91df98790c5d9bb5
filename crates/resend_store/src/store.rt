ghost use Rattle.std.specs.Prelude.{◌≡◌, ◌+◌, ◌≤◌, IfOk, IfSome, option_map};
ghost use Rattle.std.specs.Option.{option_copied};
ghost use Rattle.gev_types.specs.FrameSize.{IsFrame};
ghost use Rattle.resend_store.specs.Shelf.{empty_shelf, with_pushed, oldest_out, held_in, reply_in};

use crate::reply::Reply;
use crate::sent::SentFrame;
use crate::shelf::{find, missing_reply, packets_reply, take_oldest};
use gev_types::{Frame, MAX_PAYLOAD_SIZE, MIN_PAYLOAD_SIZE, NoMemory};
use std::alloc::Global;
use std::marker::Model;

/// The last frames that a camera sent, 1 to 8 of them, from which packets are sent again.
///
/// Contracts see how many frames are held at most, how many were pushed since the last clear, and the
/// last of these. Only `new` takes memory; frames are moved, and never copied.
#[derive(Drop)]
pub struct Store {
    room: u8,
    count: u64,
    frames: Vec<SentFrame>,
}

impl Model for Store {
    ghost use Rattle.std.specs.Prelude.{◌≤◌, vec_capacity};
    ghost use Rattle.resend_store.specs.Shelf.{Shelf, IsShelf};

    ghost Value = { Shelf };

    ghost view = { λ s. record { room = s.room; count = s.count; frames = s.frames.items } };

    // The list never grows beyond the memory that `new` took.
    ghost invariant = { λ s. IsShelf s.room s.count s.frames.items × (s.room ≤ vec_capacity s.frames) };
}

impl Store {
    /// An empty store that holds the last so many frames.
    pub fn new(alloc: Global, frames: u8) -> Result<Store, NoMemory>
        requires some { 1 ≤ frames }
        requires few { frames ≤ 8 }
        ensures { IfOk result (λ store. store ≡ empty_shelf frames) }
    {
        Ok(Store {
            room: frames,
            count: 0,
            frames: Vec::with_capacity(alloc, usize::from(frames))?,
        })
    }

    /// Adds the next frame and the payload size that it was sent with. The answer is the frame that
    /// fell out to make room, the oldest.
    pub fn push(&mut self, frame: Frame, payload_size: u32) -> Option<Frame>
        requires valid { IsFrame frame }
        requires at_least { MIN_PAYLOAD_SIZE ≤ payload_size }
        requires at_most { payload_size ≤ MAX_PAYLOAD_SIZE }
        // Block ids count the frames from 1 on.
        requires next { frame.block ≡ self.old.count + 1 }
        ensures fallen { result ≡ option_map (λ sent. sent.frame) (oldest_out self.old.room self.old.frames) }
        ensures pushed { self.new ≡ with_pushed self.old (record { frame = frame; payload_size = payload_size }) }
    {
        let fallen = take_oldest(&mut self.frames, usize::from(self.room));
        self.count = frame.block;
        self.frames.push_reserved(SentFrame {
            frame,
            payload_size,
        });
        match fallen {
            Some(SentFrame { frame, .. }) => Some(frame),
            None => None,
        }
    }

    /// What is to be answered where packets `first` to `last` of a block are asked for again.
    pub fn reply(&self, first: u32, last: u32, block: u64) -> Reply
        ensures { result ≡ reply_in self.now first last block }
    {
        match find(&self.frames, self.room, self.count, block) {
            Some(sent) => packets_reply(sent, first, last),
            None => missing_reply(self.count, block),
        }
    }

    /// The frame of a block, where it's held.
    pub fn frame(&self, block: u64) -> Option<&Frame>
        ensures held { option_copied result ≡ option_map (λ sent. sent.frame) (held_in self.now block) }
        ensures valid { IfSome result (λ frame. IsFrame frame.now) }
        ensures of_block { IfSome result (λ frame. frame.now.block ≡ block) }
    {
        match find(&self.frames, self.room, self.count, block) {
            Some(sent) => Some(&sent.frame),
            None => None,
        }
    }

    /// The payload size that the frame of a block was sent with, where it's held.
    pub fn payload_size(&self, block: u64) -> Option<u32>
        ensures held { result ≡ option_map (λ sent. sent.payload_size) (held_in self.now block) }
        ensures at_least { IfSome result (λ payload_size. MIN_PAYLOAD_SIZE ≤ payload_size) }
        ensures at_most { IfSome result (λ payload_size. payload_size ≤ MAX_PAYLOAD_SIZE) }
    {
        match find(&self.frames, self.room, self.count, block) {
            Some(sent) => Some(sent.payload_size),
            None => None,
        }
    }

    /// How many frames were pushed since the last clear, which is the last block id.
    pub fn count(&self) -> u64
        ensures { result ≡ self.now.count }
    {
        self.count
    }

    /// Forgets all frames.
    pub fn clear(&mut self)
        ensures { self.new ≡ empty_shelf self.old.room }
    {
        self.count = 0;
        self.frames.clear();
    }
}
