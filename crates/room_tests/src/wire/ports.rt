//! Ports in memory: which binds fail, and what comes back.

ghost use Rattle.std.specs.Prelude.{◌≡◌, [], Some, IfOk};

use super::links::{HERE, THERE};
use gev_links::{Clock, CountsFaults, Link, MemoryLink, MemoryPorts, Ports};
use gev_types::{NoMemory, Peer};
use std::alloc::Global;
use std::test::*;

/// A link to which nothing comes.
fn quiet_link<'a>(
    alloc: Global,
    peer: Peer,
    failing_sends: &'a [u64],
) -> Result<MemoryLink<'a>, NoMemory>
    ensures unheard { IfOk result (λ link. link.received ≡ Some []) }
    ensures unsent { IfOk result (λ link. link.sent ≡ []) }
    ensures faults { IfOk result (λ link. link.faults ≡ 0) }
{
    MemoryLink::new(alloc, peer, &[], &[], failing_sends, 1)
}

/// Ports whose second bind fails. The first link's first send fails.
pub fn some_ports<'a>(alloc: Global) -> Result<MemoryPorts<'a, MemoryLink<'a>>, NoMemory> {
    let first = quiet_link(alloc, HERE, &[1])?;
    let second = quiet_link(alloc, HERE, &[])?;
    let third = quiet_link(alloc, THERE, &[])?;
    MemoryPorts::new(alloc, first, second, third, [&[1], &[2, 3], &[4]], &[2])
}

/// The faults of each link, one digit a link behind a 1.
pub fn faults(links: &[MemoryLink<'_>]) -> u64 {
    let mut number = 1u64;
    for link in links {
        number = number.wrapping_mul(10).wrapping_add(link.fault_count());
    }
    number
}

/// Whether a bind gives the last link, and there is none behind it.
fn binds_the_last(ports: &mut MemoryPorts<'_, MemoryLink<'_>>) -> bool {
    match ports.bind() {
        Ok((link, peer)) => {
            let ended = ports.bind().is_err();
            ports.unbind(link);
            ended && peer == THERE && ports.faults() == 2
        }
        Err(_) => false,
    }
}

/// Whether binds give the first link, which has one fault, and the last one, and a fault between them and behind them.
fn binds(ports: &mut MemoryPorts<'_, MemoryLink<'_>>) -> bool {
    match ports.bind() {
        Ok((mut link, peer)) => {
            let ended = ports.bind().is_err() && binds_the_last(ports);
            let failed = link.send(THERE, &[]).is_err();
            ports.unbind(link);
            ended && failed && peer == HERE && ports.faults() == 3
        }
        Err(_) => false,
    }
}

#[test]
fn links_of_ports(rt: HostRuntime) -> Result<(), Fail> {
    let mut ports = some_ports(rt.alloc())?;
    assert!(rt; binds(&mut ports) && faults(ports.links()) == 101);
    Ok(())
}

/// What the next clock tells first; it goes back.
fn told(ports: &mut MemoryPorts<'_, MemoryLink<'_>>) -> u64 {
    let mut clock = ports.clock();
    let moment = clock.now();
    ports.unclock(clock);
    moment
}

/// Whether the clocks tell their moments, and the one behind them 0.
fn clocks_tell(ports: &mut MemoryPorts<'_, MemoryLink<'_>>) -> bool {
    told(ports) == 1 && told(ports) == 2 && told(ports) == 4 && told(ports) == 0
}

#[test]
fn clocks_of_ports(rt: HostRuntime) -> Result<(), Fail> {
    let mut ports = some_ports(rt.alloc())?;
    assert!(rt; clocks_tell(&mut ports));
    Ok(())
}
