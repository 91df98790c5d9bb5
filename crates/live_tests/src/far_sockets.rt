//! Sockets that are bound towards a peer, at a port and for broadcasts, and looks at what waits in one.

use crate::sockets::{LOOKS, gets};
use gev_far::{FarPorts, PeekLink};
use gev_links::{Link, Ports, Source};
use gev_real::{RealPorts, StandardInput, UdpLink};
use gev_types::Peer;
use std::fs::Files;
use std::net::Net;
use std::test::Fail;
use std::time::Clock as Time;

/// Whether a look of at most 16 bytes finds this datagram, from this sender.
fn shows(link: &mut UdpLink, want: &[u8], from: Peer) -> bool {
    let mut out = [0xee; 16];
    for _ in 0..LOOKS {
        match link.peek(&mut out) {
            Ok(Some((count, peer))) => return &out[..count] == want && peer == from,
            Ok(None) => {}
            Err(_) => return false,
        }
    }
    false
}

/// Whether a look finds nothing.
fn shows_nothing(link: &mut UdpLink) -> bool {
    let mut out = [0u8; 4];
    matches!(link.peek(&mut out), Ok(None))
}

/// Whether a look shows nothing while the link doesn't wait. It waits again behind that.
fn is_silent(link: &mut UdpLink) -> bool {
    link.set_waiting(false);
    let silent = shows_nothing(link);
    link.set_waiting(true);
    silent
}

/// Whether looks show a datagram and leave it for the receive, and nothing is there behind the last one.
fn shows_and_gets(here: &mut UdpLink, from: Peer) -> bool {
    shows(here, &[1, 2, 3], from)
        && shows(here, &[1, 2, 3], from)
        && gets(here, &[1, 2, 3], from)
        && gets(here, &[4], from)
        && shows_nothing(here)
        && here.faults() == 0
}

/// Whether a look at this new link shows nothing, and what the peer's link then sends to its address comes.
fn hears(here: &mut UdpLink, own: Peer, there: &mut UdpLink, peer: Peer) -> bool {
    is_silent(here)
        && there.send(own, &[1, 2, 3]).is_ok()
        && there.send(own, &[4]).is_ok()
        && shows_and_gets(here, peer)
}

/// Whether a link towards this peer has an address of its own, and what the peer's link sends there comes.
fn hears_the_peer<R: Net + Time + Files + Sync>(
    ports: &mut RealPorts<'_, R>,
    there: &mut UdpLink,
    peer: Peer,
) -> bool {
    match ports.bind_towards(peer) {
        Ok((mut here, own)) => {
            let stands = own.address == 0x7f00_0001 && own.port != 0 && own != peer;
            let heard = stands && hears(&mut here, own, there, peer);
            ports.unbind(here);
            heard
        }
        Err(_) => false,
    }
}

// Datagrams to 127.0.0.1 go from 127.0.0.1, so a link towards it has that address, with a port of its own. Looks
// leave the datagram for the receive.
#[test]
fn a_link_towards_a_peer(rt: HostRuntime) -> Result<(), Fail> {
    let mut ports = RealPorts::new(&rt);
    let (mut there, peer) = ports.bind()?;
    let heard = hears_the_peer(&mut ports, &mut there, peer);
    ports.unbind(there);
    assert!(rt; heard);
    Ok(())
}

/// Whether a second link at this link's port is refused, and so is one towards a broadcast address, and what this link
/// sends there.
fn is_alone<R: Net + Time + Files + Sync>(
    ports: &mut RealPorts<'_, R>,
    link: &mut UdpLink,
    own: Peer,
) -> bool {
    let all = Peer {
        address: 0xffff_ffff,
        port: 3956,
    };
    let refused = ports.bind_at(own).is_err() && ports.bind_towards(all).is_err();
    refused && link.peer() == own && link.send(all, &[1]).is_err()
}

/// Whether a link for broadcasts hears what this link sends to 127.0.0.1.
fn is_heard<R: Net + Time + Files + Sync>(
    ports: &mut RealPorts<'_, R>,
    link: &mut UdpLink,
    own: Peer,
) -> bool {
    match ports.bind_broadcasting() {
        Ok((mut open, any)) => {
            let here = Peer {
                address: 0x7f00_0001,
                port: any.port,
            };
            let sent = link.send(here, &[5, 6]).is_ok();
            let came = sent && gets(&mut open, &[5, 6], own);
            ports.unbind(open);
            came && any.address == 0 && any.port != 0
        }
        Err(_) => false,
    }
}

// A link that is bound at a port has it, and a second one there is refused. A link that may not broadcast doesn't, and
// none is bound towards a broadcast address; one that may is heard at each address of this machine.
#[test]
fn links_at_a_port_and_for_broadcasts(rt: HostRuntime) -> Result<(), Fail> {
    let mut ports = RealPorts::new(&rt);
    let (free, peer) = ports.bind()?;
    ports.unbind(free);
    let (mut link, own) = ports.bind_at(peer)?;
    let alone = own == peer && is_alone(&mut ports, &mut link, own);
    let heard = alone && is_heard(&mut ports, &mut link, own);
    ports.unbind(link);
    assert!(rt; heard);
    Ok(())
}

// Whatever standard input is here, a look at it comes back, and one that has ended stays so.
#[test]
fn a_look_at_standard_input_comes_back(rt: HostRuntime) {
    let mut source = StandardInput::new(rt.reader());
    let ended = source.has_ended();
    assert!(rt; !ended || source.has_ended());
}

/// Whether so many long datagrams were sent.
fn sends_many(link: &mut UdpLink, to: Peer, count: u64) -> bool {
    let datagram = [1u8; 8000];
    for _ in 0..count {
        if link.send(to, &datagram).is_err() {
            return false;
        }
    }
    true
}

/// Whether the system has dropped anything of this link's, where it tells.
fn has_drops<R: Net + Time + Files + Sync>(
    ports: &RealPorts<'_, R>,
    link: &UdpLink,
) -> Option<bool> {
    match ports.drops(link) {
        Some(told) => Some(told.datagrams > 0),
        None => None,
    }
}

/// Whether the system tells of drops of the link here, once its room is full, and of none of the link there.
fn drops_are_told<R: Net + Time + Files + Sync>(
    ports: &RealPorts<'_, R>,
    there: &mut UdpLink,
    here: &UdpLink,
    own: Peer,
) -> bool {
    let Some(before) = ports.drops(here) else {
        return false;
    };
    before.datagrams == 0
        && before.socket_bytes > 0
        && sends_many(there, own, before.socket_bytes / 8000 + 3)
        && has_drops(ports, here) == Some(true)
        && has_drops(ports, there) == Some(false)
}

/// Whether drops are told of the next link of these ports, to which this link sends.
fn next_is_told<R: Net + Time + Files + Sync>(
    ports: &mut RealPorts<'_, R>,
    there: &mut UdpLink,
) -> bool {
    match ports.bind() {
        Ok((here, own)) => {
            let told = drops_are_told(ports, there, &here, own);
            ports.unbind(here);
            told
        }
        Err(_) => false,
    }
}

// A link that nobody receives from has its room full at last, and what the system drops then is told of this link alone.
#[test]
fn what_the_system_drops_is_told(rt: HostRuntime) -> Result<(), Fail> {
    let mut ports = RealPorts::new(&rt);
    let (mut there, _) = ports.bind()?;
    let told = next_is_told(&mut ports, &mut there);
    ports.unbind(there);
    assert!(rt; told);
    Ok(())
}
