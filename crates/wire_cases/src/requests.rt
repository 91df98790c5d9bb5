//! Packets that are asked for again on a control link on which commands go too.

use crate::control::asking;
use crate::words::number;
use gev_links::MemoryLink;
use gev_types::Peer;
use gvcp_wire::write_resend;
use packet_requests::{IdMode, send_control_request, write_control_request};
use std::alloc::Global;
use std::fmt::Write;
use std::str::SplitWhitespace;

/// The link's own address.
const OWN: Peer = Peer {
    address: 0x7f00_0001,
    port: 49152,
};

/// The camera's.
const CAMERA: Peer = Peer {
    address: 0x7f00_0002,
    port: 3956,
};

/// The identifiers of a stream, by name.
fn id_mode(words: &mut SplitWhitespace<'_>) -> Option<IdMode> {
    match words.next()? {
        "standard" => Some(IdMode::Standard),
        "extended" => Some(IdMode::Extended),
        _ => None,
    }
}

/// A request number, a channel, the first and the last packet id and a block: the request as a receiver gives it.
fn receiver_request(words: &mut SplitWhitespace<'_>) -> Option<[u8; 28]> {
    let (req, resend) = asking(words)?;
    if req == 0 {
        return None;
    }
    let mut out = [0; 28];
    write_resend(&mut out, req, resend);
    Some(out)
}

/// The identifiers of a stream and a request: what it is on the control link.
pub fn control_request(alloc: Global, words: &mut SplitWhitespace<'_>) -> Option<String> {
    let ids = id_mode(words)?;
    let request = receiver_request(words)?;
    let mut out = [0xEE; 28];
    let count = write_control_request(&mut out, &request, ids);
    hex::encode(alloc, &out[..count]).ok()
}

/// What was sent over a link, each behind the address it went to.
fn sent(alloc: Global, link: &MemoryLink<'_>) -> Option<String> {
    let mut text = String::new(alloc);
    for (peer, bytes) in link.sent() {
        add_sent(alloc, *peer, bytes.as_slice(), &mut text)?;
    }
    Some(text)
}

/// Adds bytes that were sent, behind the address they went to.
fn add_sent(alloc: Global, peer: Peer, bytes: &[u8], text: &mut String) -> Option<()> {
    let address = peer.address;
    let digits = hex::encode(alloc, bytes).ok()?;
    write!(text, " {address}:{digits}").ok()
}

/// Whether something failed before (1) or not (0), the number of the send that fails, the identifiers of a stream and a
/// request, which is sent twice: whether something had failed by each, and what was sent.
pub fn sent_requests(alloc: Global, words: &mut SplitWhitespace<'_>) -> Option<String> {
    let before = number(words)? == 1;
    let failing = [number(words)?];
    let ids = id_mode(words)?;
    let request = receiver_request(words)?;
    let mut link = MemoryLink::new(alloc, OWN, &[], &[], &failing, 2).ok()?;
    send_twice(alloc, &mut link, &request, ids, before)
}

/// Sends a request twice: whether something had failed by each, and what was sent.
fn send_twice(
    alloc: Global,
    link: &mut MemoryLink<'_>,
    request: &[u8; 28],
    ids: IdMode,
    before: bool,
) -> Option<String> {
    let first = send_control_request(link, CAMERA, request, ids, before);
    let second = send_control_request(link, CAMERA, request, ids, first);
    let sent = sent(alloc, link)?;
    format!(in alloc; "{first} {second}{sent}").ok()
}
