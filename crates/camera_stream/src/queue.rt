//! The steps of what waits, over the ranges of packet ids that stand for it.

ghost use Rattle.std.specs.Prelude.{◌≡◌, ◌≤◌, ◌+◌, ◌*◌, ◌^◌, [], length, sum_by};
ghost use Rattle.camera_stream.specs.Queue.{rest_span, queued, with_queued, after_reply, span_left, frame_left, reply_left};
ghost use Rattle.camera_stream.specs.Writing.{first_head};

use crate::span::{QueuedReply, Span};
use arrayvec::ArrayVec;
use gvcp_wire::Resend;
use resend_store::Reply;
use stream_packets::Head;

// The header of the first packet of a range, sent a first time.
pub(crate) fn first_head(span: Span) -> Head
    ensures { result ≡ first_head span }
{
    Head {
        status: 0,
        flags: 0,
        block: span.block,
        id: span.next,
    }
}

// What is left after the first packet of a range.
pub(crate) fn rest_span(span: Span) -> Option<Span>
    ensures { result ≡ rest_span span }
{
    if span.next < span.last {
        Some(Span {
            block: span.block,
            next: span.next + 1,
            last: span.last,
        })
    } else {
        None
    }
}

// What waits where the store answers a PACKETRESEND command like this.
pub(crate) fn queued(resend: Resend, reply: Reply) -> QueuedReply
    ensures { result ≡ queued resend reply }
{
    match reply {
        Reply::Packets { first, last } => QueuedReply::Packets(Span {
            block: resend.block,
            next: first,
            last,
        }),
        Reply::Notice(status) => QueuedReply::Notice(Head {
            status,
            flags: 0,
            block: resend.block,
            id: resend.first,
        }),
    }
}

// Drops all that waits.
pub(crate) fn clear(frame: &mut Option<Span>, replies: &mut ArrayVec<QueuedReply, 64>)
    ensures frame { frame.new ≡ None }
    ensures replies { replies.new.items ≡ [] }
{
    *frame = None;
    replies.clear();
}

// Puts the reply behind the others, where fewer than 64 wait.
pub(crate) fn push_reply(replies: &mut ArrayVec<QueuedReply, 64>, reply: QueuedReply)
    ensures { replies.new.items ≡ with_queued replies.old.items reply }
{
    if replies.len() < 64 {
        replies.push(reply);
    }
}

// The replies after the first packet of them was given.
pub(crate) fn step_replies(replies: &mut ArrayVec<QueuedReply, 64>)
    ensures { replies.new.items ≡ after_reply replies.old.items }
{
    let Some(first) = replies.get_mut(0) else {
        return;
    };
    if let QueuedReply::Packets(span) = *first
        && let Some(rest) = rest_span(span)
    {
        *first = QueuedReply::Packets(rest);
        return;
    }
    replies.remove(0);
}

// How many packets these are.
fn span_left(span: Span) -> usize
    ensures value { result ≡ span_left span }
    ensures few { result ≤ 2 ^ 32 }
{
    (span.last as usize + 1).saturating_sub(span.next as usize)
}

fn reply_left(reply: QueuedReply) -> usize
    ensures value { result ≡ reply_left reply }
    ensures few { result ≤ 2 ^ 32 }
{
    match reply {
        QueuedReply::Packets(span) => span_left(span),
        QueuedReply::Notice(_) => 1,
    }
}

fn frame_left(frame: Option<Span>) -> usize
    ensures value { result ≡ frame_left frame }
    ensures few { result ≤ 2 ^ 32 }
{
    match frame {
        Some(span) => span_left(span),
        None => 0,
    }
}

fn replies_left(replies: &[QueuedReply]) -> usize
    requires { length replies.now ≤ 64 }
    ensures value { result ≡ sum_by reply_left replies.now }
    ensures few { result ≤ 2 ^ 32 * 64 }
{
    let mut count = 0;
    for reply in replies {
        count += reply_left(*reply);
    }
    count
}

// How many packets wait.
pub(crate) fn packet_count(frame: Option<Span>, replies: &[QueuedReply]) -> usize
    requires { length replies.now ≤ 64 }
    ensures { result ≡ frame_left frame + sum_by reply_left replies.now }
{
    frame_left(frame) + replies_left(replies)
}
