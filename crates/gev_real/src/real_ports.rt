ghost use Rattle.std.specs.Prelude.{◌≡◌, ◌≤◌, None, Ok, IfOk, OnErr};
ghost use Rattle.gev_links.specs.Faults.{Rose};
ghost use Rattle.gev_links.specs.Given.{one_more};

use crate::call_fault::{CallFault, bind_fault};
use crate::monotonic_clock::MonotonicClock;
use crate::sent_commands::{SentCommand, SentCommands};
use crate::socket_table::drops_at;
use crate::udp_link::{LOCALHOST, UdpLink, own_towards};
use gev_far::{Drops, FarPorts};
use gev_links::{Failed, Link, Ports};
use gev_types::Peer;
use std::fs::Files;
use std::io;
use std::net::Net;
use std::time::Clock as Time;

/// How many of the links that are bound first wait for a datagram.
const WAITING_LINKS: u64 = 2;

/// How many binds there were, how many faults, and the call that failed first.
#[derive(Drop)]
struct Tally {
    binds: u64,
    faults: u64,
    first: Option<CallFault>,
}

impl Tally {
    /// Of nothing yet.
    fn new() -> Tally
        ensures binds { result.binds ≡ 0 }
        ensures faults { result.faults ≡ 0 }
    {
        Tally {
            binds: 0,
            faults: 0,
            first: None,
        }
    }

    /// Counts a fault, of which the first one is kept.
    fn count_fault(&mut self, fault: Option<CallFault>)
        ensures binds { self.new.binds ≡ self.old.binds }
        ensures failed { Rose self.old.faults self.new.faults }
        ensures never_falls { self.old.faults ≤ self.new.faults }
    {
        self.first = self.first.or(fault);
        self.faults = self.faults.saturating_add(1);
    }

    /// Counts a bind, and its fault where it failed.
    fn count_bind(&mut self, opened: Result<UdpLink, CallFault>) -> Result<(UdpLink, Peer), Failed>
        requires { IfOk opened (λ link. link.faults ≡ 0) }
        ensures no_fault_of_it { IfOk result (λ bound. bound.0.faults ≡ 0) }
        ensures link { IfOk result (λ bound. opened ≡ Ok bound.0) }
        ensures address { IfOk result (λ bound. bound.0.peer ≡ bound.1) }
        ensures binds { self.new.binds ≡ one_more self.old.binds }
        ensures no_fault { IfOk result (λ _. self.new.faults ≡ self.old.faults) }
        ensures failed { OnErr result (Rose self.old.faults self.new.faults) }
        ensures never_falls { self.old.faults ≤ self.new.faults }
    {
        self.binds = self.binds.saturating_add(1);
        match opened {
            Ok(link) => {
                let peer = link.peer();
                Ok((link, peer))
            }
            Err(fault) => {
                self.count_fault(Some(fault));
                Err(Failed)
            }
        }
    }
}

/// UDP sockets and the system's clock. What comes back is closed.
///
/// `bind` gives a socket on 127.0.0.1. The third link and each later one of them doesn't wait in its receives: it's
/// that of the reader's commands, on which the reader looks once for each datagram of the stream.
///
/// ```
/// let mut ports = RealPorts::new(&rt);
/// let (mut link, own) = ports.bind_towards(camera)?;
/// let mut clock = ports.clock();
/// ```
#[derive(Drop)]
pub struct RealPorts<'a, R: Net + Time + Files + Sync> {
    rt: &'a R,
    tally: Tally,
    commands: Option<SentCommands>,
}

impl<'a, R: Net + Time + Files + Sync> RealPorts<'a, R> {
    /// Ports that have bound nothing yet.
    pub fn new(rt: &'a R) -> RealPorts<'a, R>
        ensures binds { result.tally.binds ≡ 0 }
        ensures faults { result.tally.faults ≡ 0 }
    {
        RealPorts {
            rt,
            tally: Tally::new(),
            commands: None,
        }
    }

    /// The command with this request number, which was sent to a camera. It's one of those of the link that came back last
    /// and had sent some.
    pub fn command(&self, request: u16) -> Option<SentCommand> {
        self.commands?.with_request(request)
    }

    /// The call that failed first: a bind, or one of a link that came back.
    pub fn fault(&self) -> Option<CallFault> {
        self.tally.first
    }
}

/// A new link at just this address.
fn open_at<N: Net>(net: &N, own: Peer) -> Result<UdpLink, CallFault>
    ensures no_fault_of_it { IfOk result (λ link. link.faults ≡ 0) }
    ensures at { IfOk result (λ link. link.peer ≡ own) }
{
    let link = UdpLink::open(net, own, true).map_err(bind_fault)?;
    if link.peer() == own {
        Ok(link)
    } else {
        Err(bind_fault(io::Error::from(io::ErrorKind::AddrNotAvailable)))
    }
}

/// A new link at that address of this machine from which datagrams go to a peer.
fn open_towards<N: Net>(net: &N, peer: Peer) -> Result<UdpLink, CallFault>
    ensures { IfOk result (λ link. link.faults ≡ 0) }
{
    let own = own_towards(net, peer)?;
    UdpLink::open_far(net, own).map_err(bind_fault)
}

impl<'a, R: Net + Time + Files + Sync> Ports for RealPorts<'a, R> {
    type L = UdpLink;

    type C = MonotonicClock<'a, R>;

    ghost binds = { λ p. p.tally.binds };

    ghost bound = { λ _. None };

    ghost links = { λ _. None };

    ghost clocks = { λ _. None };

    ghost faults = { λ p. p.tally.faults };

    fn bind(&mut self) -> Result<(UdpLink, Peer), Failed> {
        let waits = self.tally.binds < WAITING_LINKS;
        let opened = UdpLink::open(self.rt, LOCALHOST, waits).map_err(bind_fault);
        self.tally.count_bind(opened)
    }

    fn clock(&mut self) -> MonotonicClock<'a, R> {
        MonotonicClock::new(self.rt)
    }

    fn unbind(&mut self, link: UdpLink) {
        self.commands = link.commands().or(self.commands);
        if link.faults() > 0 {
            self.tally.count_fault(link.fault());
        }
    }

    fn unclock(&mut self, _clock: MonotonicClock<'a, R>) {}
}

impl<'a, R: Net + Time + Files + Sync> FarPorts for RealPorts<'a, R> {
    ghost stands_at = { λ asked bound. bound ≡ asked };

    fn bind_towards(&mut self, peer: Peer) -> Result<(UdpLink, Peer), Failed> {
        let opened = open_towards(self.rt, peer);
        self.tally.count_bind(opened)
    }

    fn bind_at(&mut self, own: Peer) -> Result<(UdpLink, Peer), Failed> {
        let opened = open_at(self.rt, own);
        self.tally.count_bind(opened)
    }

    fn bind_broadcasting(&mut self) -> Result<(UdpLink, Peer), Failed> {
        let opened = UdpLink::open_broadcasting(self.rt).map_err(bind_fault);
        self.tally.count_bind(opened)
    }

    fn drops(&self, link: &UdpLink) -> Option<Drops> {
        let datagrams = drops_at(self.rt, link.peer())?;
        Some(Drops {
            datagrams,
            socket_bytes: link.room(),
        })
    }
}
