//! What links and ports in memory do beside `Link` and `Ports`: looks at what comes next, and binds that reach the
//! network.

use super::links::{HERE, THERE};
use super::numbers::{FAILED, NOTHING, digits};
use super::ports::{faults, some_ports};
use gev_far::{FarPorts, PeekLink};
use gev_links::{CountsFaults, Link, MemoryLink, MemoryPorts, Ports};
use gev_types::{NoMemory, Peer};
use std::alloc::Global;
use std::test::*;

/// One look into at most 8 bytes: the sender's port, and the bytes in three digits behind it.
fn look<L: PeekLink>(link: &mut L, length: usize) -> u64 {
    let mut out = [0; 8];
    match link.peek(&mut out[..length.min(8)]) {
        Ok(Some((count, peer))) => u64::from(peer.port) * 1000 + digits(&out[..count]) % 1000,
        Ok(None) => NOTHING,
        Err(_) => FAILED,
    }
}

/// How many bytes a receive gives, `NOTHING` or `FAILED`.
fn receive<L: Link>(link: &mut L) -> u64 {
    let mut out = [0; 9000];
    match link.recv(&mut out) {
        Ok(Some((count, _))) => count as u64,
        Ok(None) => NOTHING,
        Err(_) => FAILED,
    }
}

/// Whether looks show three bytes, then a fault, then nothing, each as the receive behind it does.
fn looks_show_receives(link: &mut MemoryLink<'_>) -> bool {
    let first = look(link, 2) == 3_956_012 && look(link, 8) == 3_956_123 && receive(link) == 3;
    let second = look(link, 8) == FAILED && receive(link) == FAILED;
    let last = look(link, 8) == NOTHING && receive(link) == NOTHING && look(link, 8) == NOTHING;
    first && second && last && link.fault_count() == 2
}

// A look shows what the next receive gives, and fails where that one does. It is no receive.
#[test]
fn looks_in_memory(rt: HostRuntime) -> Result<(), Fail> {
    let answers: [Option<(&[u8], Peer)>; 3] = [
        Some((&[1, 2, 3], THERE)),
        Some((&[4], THERE)),
        None,
    ];
    let mut link = MemoryLink::new(rt.alloc(), HERE, &answers, &[2], &[], 0)?;
    link.set_waiting(false);
    assert!(rt; looks_show_receives(&mut link));
    Ok(())
}

/// A look at a new link towards this peer, which goes back.
fn look_towards<P: FarPorts>(ports: &mut P, peer: Peer) -> u64
where
    P::L: PeekLink,
{
    match ports.bind_towards(peer) {
        Ok((mut link, _)) => {
            let seen = look(&mut link, 8);
            ports.unbind(link);
            seen
        }
        Err(_) => FAILED,
    }
}

/// Whether a bind for broadcasts gives the last link, and there is none behind it.
fn binds_the_last(ports: &mut MemoryPorts<'_, MemoryLink<'_>>) -> bool {
    match ports.bind_broadcasting() {
        Ok((link, peer)) => {
            let ended = ports.bind_at(THERE).is_err();
            ports.unbind(link);
            ended && peer == THERE
        }
        Err(_) => false,
    }
}

/// Whether far binds give the first link and the last one, and a fault between them and behind them.
fn binds_far(ports: &mut MemoryPorts<'_, MemoryLink<'_>>) -> bool {
    match ports.bind_towards(THERE) {
        Ok((link, peer)) => {
            let ended = ports.bind_at(THERE).is_err() && binds_the_last(ports);
            ports.unbind(link);
            ended && peer == HERE && ports.faults() == 2
        }
        Err(_) => false,
    }
}

/// Whether a look at the first link finds nothing, and the bind behind it fails.
fn looks_towards(alloc: Global) -> Result<bool, NoMemory> {
    let mut ports = some_ports(alloc)?;
    Ok(look_towards(&mut ports, THERE) == NOTHING && look_towards(&mut ports, THERE) == FAILED)
}

/// Whether far binds give the first link and the last one, and no link has a fault.
fn gives_far(alloc: Global) -> Result<bool, NoMemory> {
    let mut ports = some_ports(alloc)?;
    Ok(binds_far(&mut ports) && faults(ports.links()) == 100)
}

// Each bind gives the next link, wherever it is to be. The second one fails.
#[test]
fn far_links_of_ports(rt: HostRuntime) -> Result<(), Fail> {
    assert!(rt; looks_towards(rt.alloc())?);
    assert!(rt; gives_far(rt.alloc())?);
    Ok(())
}
