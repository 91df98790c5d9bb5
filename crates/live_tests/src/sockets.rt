//! Sockets on 127.0.0.1 that send to each other.

use gev_links::{Link, Ports, ShortLink};
use gev_real::{RealPorts, UdpLink};
use gev_types::Peer;
use std::fs::Files;
use std::net::Net;
use std::test::Fail;
use std::time::Clock as Time;

/// How often a test looks for a datagram that was sent.
pub const LOOKS: u32 = 1_000;

/// Whether this datagram is the next one that comes, from this sender.
pub fn gets(link: &mut UdpLink, want: &[u8], from: Peer) -> bool {
    let mut out = [0xee; 9000];
    for _ in 0..LOOKS {
        match link.recv(&mut out) {
            Ok(Some((count, peer))) => return &out[..count] == want && peer == from,
            Ok(None) => {}
            Err(_) => return false,
        }
    }
    false
}

/// Whether a receive into a short slice gets just these bytes of the next datagram that comes, from this sender.
fn gets_front(link: &mut UdpLink, want: &[u8], from: Peer) -> bool {
    let mut out = [0xee; 1600];
    for _ in 0..LOOKS {
        match link.recv_front(&mut out) {
            Ok(Some((count, peer))) => return count == 1600
                && &out[..count] == want
                && peer == from,
            Ok(None) => {}
            Err(_) => return false,
        }
    }
    false
}

/// Whether nothing comes in a receive, which is no fault.
fn gets_nothing(link: &mut UdpLink) -> bool {
    let mut out = [0u8; 9000];
    matches!(link.recv(&mut out), Ok(None)) && link.faults() == 0
}

/// Whether what one link sends comes here: a datagram that is longer than a short slice is cut, and the next one is whole.
fn sends_two(sender: &mut UdpLink, there: Peer, receiver: &mut UdpLink, here: Peer) -> bool {
    sender.send(here, &[5; 1602]).is_ok()
        && sender.send(here, &[7]).is_ok()
        && gets_front(receiver, &[5; 1600], there)
        && gets(receiver, &[7], there)
}

/// Whether these links, which are bound here and there, send to each other. A link has no fault by a receive that gets
/// nothing.
fn send_both_ways(waiting: &mut UdpLink, here: Peer, looking: &mut UdpLink, there: Peer) -> bool {
    sends_two(looking, there, waiting, here)
        && waiting.send(there, &[8, 9]).is_ok()
        && gets(looking, &[8, 9], here)
        && gets_nothing(waiting)
        && gets_nothing(looking)
}

/// Whether the third link of these ports and this one, which is the second, send to each other.
fn third_sends<R: Net + Time + Files + Sync>(
    ports: &mut RealPorts<'_, R>,
    waiting: &mut UdpLink,
    here: Peer,
) -> bool {
    match ports.bind() {
        Ok((mut looking, there)) => {
            let differs = here.port != there.port;
            let sent = differs && send_both_ways(waiting, here, &mut looking, there);
            ports.unbind(looking);
            sent
        }
        Err(_) => false,
    }
}

/// Whether the second and the third link of these ports send to each other, on 127.0.0.1.
fn second_sends<R: Net + Time + Files + Sync>(ports: &mut RealPorts<'_, R>) -> bool {
    match ports.bind() {
        Ok((mut waiting, here)) => {
            let stands = waiting.peer() == here && here.address == 0x7f00_0001;
            let sent = stands && third_sends(ports, &mut waiting, here);
            ports.unbind(waiting);
            sent
        }
        Err(_) => false,
    }
}

// The second link waits, the third doesn't.
#[test]
fn links_send_to_each_other(rt: HostRuntime) -> Result<(), Fail> {
    let mut ports = RealPorts::new(&rt);
    let (camera, _) = ports.bind()?;
    let sent = second_sends(&mut ports);
    ports.unbind(camera);
    assert!(rt; sent);
    Ok(())
}

/// Whether a send to nobody fails, as the link's only fault.
fn counts_a_failure(link: &mut UdpLink, peer: Peer) -> bool {
    let nobody = Peer { port: 0, ..peer };
    link.send(nobody, &[1]).is_err() && link.faults() == 1
}

// Nobody can be reached at port 0, and a send to it is the link's fault.
#[test]
fn a_send_that_fails_is_counted(rt: HostRuntime) -> Result<(), Fail> {
    let mut ports = RealPorts::new(&rt);
    let (mut link, peer) = ports.bind()?;
    let counted = counts_a_failure(&mut link, peer);
    ports.unbind(link);
    assert!(rt; counted);
    Ok(())
}
