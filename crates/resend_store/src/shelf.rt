//! What the store does with its list of held frames.

ghost use Rattle.std.specs.Prelude.{◌≡◌, ◌+◌, ◌≤◌, length, min, vec_len, vec_capacity, option_map};
ghost use Rattle.std.specs.Option.{option_copied};
ghost use Rattle.resend_store.specs.Sent.{trailer_id, IsSentFrame};
ghost use Rattle.resend_store.specs.Pushes.{packets_reply, missing_reply};
ghost use Rattle.resend_store.specs.Shelf.{staying, oldest_out, shelved};

use crate::reply::Reply;
use crate::sent::SentFrame;
use gvcp_wire::Status;

// Takes the oldest frame out where there is no room for one more.
pub(crate) fn take_oldest(frames: &mut Vec<SentFrame>, room: usize) -> Option<SentFrame>
    requires some { 1 ≤ room }
    ensures fallen { result ≡ oldest_out room frames.old.items }
    ensures rest { frames.new.items ≡ staying room frames.old.items }
    ensures capacity { vec_capacity frames.new ≡ vec_capacity frames.old }
{
    if frames.len() < room {
        return None;
    }
    Some(frames.remove(0))
}

// The held frame of a block, of which only the last `room` are held.
pub(crate) fn find(frames: &[SentFrame], room: u8, count: u64, block: u64) -> Option<&SentFrame>
    requires filled { length frames.now ≡ min room count }
    ensures { option_copied result ≡ shelved room count frames.now block }
{
    if block == 0 || block > count || count - block >= u64::from(room) {
        return None;
    }
    frames.get(frames.len() - 1 - (count - block) as usize)
}

fn trailer_id(sent: &SentFrame) -> u32
    requires { IsSentFrame sent.now }
    ensures { result ≡ trailer_id sent.now }
{
    let len = sent.frame.pixels.as_slice().len();
    let payload_size = sent.payload_size as usize;
    ((len + payload_size - 1) / payload_size + 1) as u32
}

// The reply where the frame is held.
pub(crate) fn packets_reply(sent: &SentFrame, first: u32, last: u32) -> Reply
    requires { IsSentFrame sent.now }
    ensures { result ≡ packets_reply sent.now first last }
{
    let trailer = trailer_id(sent);
    if first > trailer || first > last {
        return Reply::Notice(Status::PacketUnavailable.code());
    }
    Reply::Packets {
        first,
        last: last.min(trailer),
    }
}

// The reply where no frame of the block is held.
pub(crate) fn missing_reply(count: u64, block: u64) -> Reply
    ensures { result ≡ missing_reply count block }
{
    let status = if block > count {
        Status::PacketNotYetAvailable
    } else if block == 0 {
        Status::PacketUnavailable
    } else {
        Status::PacketRemovedFromMemory
    };
    Reply::Notice(status.code())
}
