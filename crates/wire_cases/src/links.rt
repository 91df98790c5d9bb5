//! Links that stand on links, over links in memory.

ghost use Rattle.std.specs.Prelude.{◌≡◌};

use crate::words::{bytes_of, number32};
use gev_links::{Link, MemoryLink};
use gev_types::Peer;
use link_filters::{Heard, OnlyFrom, Widened};
use std::alloc::Global;
use std::fmt::Write;
use std::marker::Brand;
use std::str::SplitWhitespace;

/// The room for a datagram.
const ROOM: usize = 9000;

/// Of a longer datagram a row tells the length and the last byte.
const LONG: usize = 64;

/// The link's own address.
const OWN: Peer = Peer {
    address: 0x7f00_0001,
    port: 49152,
};

/// A datagram that comes to the link, and from which address.
#[derive(Drop)]
struct Datagram {
    sender: u32,
    bytes: Vec<u8>,
}

/// The other words of a row: datagrams, each behind its sender's address and a colon.
fn datagrams(alloc: Global, words: &mut SplitWhitespace<'_>) -> Option<Vec<Datagram>> {
    let mut all = Vec::new(alloc);
    for word in words {
        all.push(datagram_of(alloc, word)?).ok()?;
    }
    Some(all)
}

/// A datagram behind its sender's address and a colon.
fn datagram_of(alloc: Global, word: &str) -> Option<Datagram> {
    let (sender, digits) = word.split_once(':')?;
    let sender = sender.parse::<u32>().ok()?;
    let bytes = bytes_of(alloc, digits)?;
    Some(Datagram { sender, bytes })
}

/// What the receives of a link in memory are to give.
fn answers<'a>(alloc: Global, datagrams: &'a [Datagram]) -> Option<Vec<Option<(&'a [u8], Peer)>>> {
    let mut all = Vec::new(alloc);
    for datagram in datagrams {
        let peer = Peer {
            address: datagram.sender,
            port: 3956,
        };
        all.push(Some((datagram.bytes.as_slice(), peer))).ok()?;
    }
    Some(all)
}

/// Adds a datagram that was heard.
fn add_datagram(alloc: Global, bytes: &[u8], text: &mut String) -> Option<()> {
    let len = bytes.len();
    match bytes.last() {
        None => text.push_str("-; ").ok(),
        Some(last) if len > LONG => write!(text, "{len} bytes to {last}; ").ok(),
        Some(_) => {
            let digits = hex::encode(alloc, bytes).ok()?;
            write!(text, "{digits}; ").ok()
        }
    }
}

/// Adds what a receive of a link gives.
fn add_heard<L: Link>(alloc: Global, link: &mut L, text: &mut String) -> Option<()> {
    let mut out = [0; ROOM];
    match link.recv(&mut out) {
        Ok(Some((len, _))) => add_datagram(alloc, &out[..len], text),
        Ok(None) => text.push_str("nothing; ").ok(),
        Err(_) => text.push_str("failed; ").ok(),
    }
}

/// What so many receives of a link give.
fn heard<L: Link>(alloc: Global, link: &mut L, count: usize) -> Option<String> {
    let mut text = String::new(alloc);
    for _ in 0..count {
        add_heard(alloc, link, &mut text)?;
    }
    Some(text)
}

/// An address, and datagrams: what receives give that hear this address alone, and how many were strangers'.
pub fn only_from(alloc: Global, words: &mut SplitWhitespace<'_>) -> Option<String> {
    let source = number32(words)?;
    let sent = datagrams(alloc, words)?;
    let answers = answers(alloc, sent.as_slice())?;
    hear_one::<Brand>(alloc, source, answers.as_slice())
}

/// What receives give that hear one address alone of those that send, and how many were strangers'.
fn hear_one<H: Heard>(
    alloc: Global,
    source: u32,
    answers: &[Option<(&[u8], Peer)>],
) -> Option<String>
    requires { source ≡ H.source }
{
    let inner = MemoryLink::new(alloc, OWN, answers, &[], &[], 0).ok()?;
    let mut link: OnlyFrom<MemoryLink<'_>, H> = OnlyFrom::new(inner, source);
    let text = heard(alloc, &mut link, answers.len())?;
    let strangers = link.strangers();
    format!(in alloc; "{text}strangers {strangers}").ok()
}

/// Datagrams: what receives give that widen them, one after the other, and how many were refused.
pub fn wide_link(alloc: Global, words: &mut SplitWhitespace<'_>) -> Option<String> {
    let sent = datagrams(alloc, words)?;
    let answers = answers(alloc, sent.as_slice())?;
    hear_wide(alloc, answers.as_slice())
}

/// What receives give that widen what comes, and how many datagrams were refused.
fn hear_wide(alloc: Global, answers: &[Option<(&[u8], Peer)>]) -> Option<String> {
    let inner = MemoryLink::new(alloc, OWN, answers, &[], &[], 0).ok()?;
    let mut link: Widened<MemoryLink<'_>, Brand> = Widened::new(inner);
    let text = heard(alloc, &mut link, answers.len())?;
    let refused = link.refused();
    format!(in alloc; "{text}refused {refused}").ok()
}
