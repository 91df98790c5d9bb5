//! Links in memory: which receives and sends fail, and what the others give and keep.

use super::numbers::{FAILED, NOTHING, digits};
use gev_links::{CountsFaults, DiscardingLink, Failed, Link, MemoryLink, ShortLink};
use gev_types::{NoMemory, Peer};
use std::alloc::Global;
use std::test::*;

pub const HERE: Peer = Peer {
    address: 0x7f00_0001,
    port: 49152,
};

pub const THERE: Peer = Peer {
    address: 0x7f00_0001,
    port: 3956,
};

/// What a receive gave: the sender's port, four digits of how many bytes came, and three of the last one.
fn number_of(came: Result<Option<(usize, Peer)>, Failed>, out: &[u8]) -> u64 {
    match came {
        Ok(Some((count, peer))) => {
            let last = out.get(count.saturating_sub(1)).copied().unwrap_or(0);
            u64::from(peer.port) * 10_000_000 + count as u64 % 10_000 * 1000 + u64::from(last)
        }
        Ok(None) => NOTHING,
        Err(_) => FAILED,
    }
}

/// One receive.
fn receive<L: Link>(link: &mut L) -> u64 {
    let mut out = [0; 9000];
    number_of(link.recv(&mut out), &out)
}

/// A receive into a short slice, and then three others.
fn receives<L: ShortLink>(link: &mut L) -> [u64; 4] {
    let mut out = [0; 1600];
    let first = number_of(link.recv_front(&mut out), &out);
    [first, receive(link), receive(link), receive(link)]
}

/// Whether a link in memory gives these datagrams. Its second and fourth receive fail: the second uses up a datagram, and the
/// fourth is behind the end of the list.
fn memory_gives(alloc: Global, answers: &[Option<(&[u8], Peer)>]) -> Result<bool, NoMemory> {
    let mut link = MemoryLink::new(alloc, HERE, answers, &[2, 4], &[], 0)?;
    let came = receives(&mut link) == [39_561_600_002, FAILED, NOTHING, NOTHING];
    Ok(came && link.fault_count() == 1 && link.peer() == HERE)
}

/// Whether a link that keeps nothing gives these datagrams, and sends.
fn discarding_gives(alloc: Global, answers: &[Option<(&[u8], Peer)>]) -> Result<bool, NoMemory> {
    let mut link = DiscardingLink::new(alloc, HERE, answers)?;
    let came = receives(&mut link) == [39_561_600_002, 39_560_001_004, NOTHING, NOTHING];
    Ok(came && link.send(THERE, &[1]).is_ok() && link.fault_count() == 0 && link.peer() == HERE)
}

// The first datagram is longer than a short slice, which ends with its byte 2.
#[test]
fn receives_in_memory(rt: HostRuntime) -> Result<(), Fail> {
    let mut long = [1u8; 1601];
    long[1599] = 2;
    let answers: [Option<(&[u8], Peer)>; 3] = [Some((&long, THERE)), Some((&[4], THERE)), None];
    assert!(rt; memory_gives(rt.alloc(), &answers)?);
    assert!(rt; discarding_gives(rt.alloc(), &answers)?);
    Ok(())
}

/// The two datagrams that were kept: to which port each went, and its bytes in two digits behind it.
fn kept(link: &MemoryLink<'_>) -> u64 {
    let mut number = 0u64;
    for (peer, bytes) in link.sent() {
        let sent = u64::from(peer.port) * 100 + digits(bytes.as_slice()) % 100;
        number = number.wrapping_mul(10_000_000).wrapping_add(sent);
    }
    number
}

/// Whether of four sends the first and the third go out and are kept, and the others are faults.
fn sends_two_of_four(link: &mut MemoryLink<'_>) -> bool {
    let sent = link.send(THERE, &[1, 2]).is_ok() && link.send(THERE, &[3]).is_err();
    let ended = sent && link.send(HERE, &[]).is_ok() && link.send(THERE, &[4]).is_err();
    ended && link.fault_count() == 2 && kept(link) == 395_612_4_915_200
}

// Room for two datagrams; the second send fails.
#[test]
fn sends_in_memory(rt: HostRuntime) -> Result<(), Fail> {
    let mut link = MemoryLink::new(rt.alloc(), HERE, &[], &[], &[2], 2)?;
    assert!(rt; sends_two_of_four(&mut link));
    Ok(())
}
