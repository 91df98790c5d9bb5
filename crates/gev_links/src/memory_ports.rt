ghost use Rattle.std.specs.Prelude.{◌≡◌, ◌≤◌, [], ◌∷◌, Some, None, vec_capacity, if◌then◌else◌, IfOk, IfSome};
ghost use Rattle.gev_links.specs.Given.{ToldOfThree};
ghost use Rattle.gev_links.specs.PortsState.{IsNew, AreUntold};

use crate::failed::Failed;
use crate::fault_count::CountsFaults;
use crate::memory_clock::MemoryClock;
use crate::ports::Ports;
use gev_types::{NoMemory, Peer};
use std::alloc::Global;
use std::marker::Model;

/// How many links, and how many clocks, come back at most and are told, and how many addresses are.
const ROOM: usize = 3;

/// Ports in memory: three links and three clocks, room for three of each that come back, and for the addresses of
/// three links.
#[derive(Drop)]
pub struct MemoryPorts<'a, L: CountsFaults + Send + Drop> {
    // the last one is given first
    links: Vec<L>,
    clocks: Vec<MemoryClock<'a>>,
    failing: &'a [u64],
    binds: u64,
    bound: Vec<Peer>,
    bound_lost: bool,
    links_back: Vec<L>,
    links_lost: bool,
    clocks_back: Vec<MemoryClock<'a>>,
    clocks_lost: bool,
    faults: u64,
}

impl<'a, L: CountsFaults + Send + Drop> Model for MemoryPorts<'a, L> {
    ghost use Rattle.std.specs.Prelude.{Some, None, if◌then◌else◌, vec_capacity};
    ghost use Rattle.gev_links.specs.PortsState.{PortsState, IsHolding};

    ghost Value = { PortsState L };

    ghost view = { λ p. record {
      binds = p.binds;
      bound = if p.bound_lost then None else Some p.bound.items;
      links = if p.links_lost then None else Some p.links_back.items;
      clocks = if p.clocks_lost then None else Some p.clocks_back.items;
      faults = p.faults;
    } };

    ghost invariant = { λ p. IsHolding L.received L.sent L.faults p.links.items p.clocks.items (vec_capacity p.links_back) (vec_capacity p.clocks_back) (vec_capacity p.bound) };
}

/// Keeps the address of a link that is bound, where it's one of the first three.
fn keep_address(bound: &mut Vec<Peer>, lost: &mut bool, peer: Peer)
    requires room { 3 ≤ vec_capacity bound.old }
    ensures told { ToldOfThree (if lost.old then None else Some bound.old.items) (if lost.new then None else Some bound.new.items) peer }
    ensures room { 3 ≤ vec_capacity bound.new }
{
    if bound.len() < ROOM {
        bound.push_reserved(peer);
    } else {
        *lost = true;
    }
}

/// These links, the first of them last, as it's given first.
fn three_links<L: CountsFaults + Send + Drop>(
    alloc: Global,
    first: L,
    second: L,
    third: L,
) -> Result<Vec<L>, NoMemory>
    ensures { IfOk result (λ links. links.items ≡ third ∷ second ∷ first ∷ []) }
{
    let mut links = Vec::with_capacity(alloc, ROOM)?;
    links.push_reserved(third);
    links.push_reserved(second);
    links.push_reserved(first);
    Ok(links)
}

/// Clocks with these lists of moments, the first of them last.
fn three_clocks<'a>(
    alloc: Global,
    moments: [&'a [u64]; 3],
) -> Result<Vec<MemoryClock<'a>>, NoMemory>
    ensures { IfOk result (λ clocks. AreUntold clocks.items) }
{
    let mut clocks = Vec::with_capacity(alloc, ROOM)?;
    let [one, two, three] = moments;
    clocks.push_reserved(MemoryClock::new(three));
    clocks.push_reserved(MemoryClock::new(two));
    clocks.push_reserved(MemoryClock::new(one));
    Ok(clocks)
}

impl<'a, L: CountsFaults + Send + Drop> MemoryPorts<'a, L> {
    /// Ports that give these three links, and clocks with these lists of moments, in this order. The binds
    /// whose numbers are among `failing` fail, and so does each beyond the third link; binds count from 1.
    pub fn new(
        alloc: Global,
        first: L,
        second: L,
        third: L,
        moments: [&'a [u64]; 3],
        failing: &'a [u64],
    ) -> Result<MemoryPorts<'a, L>, NoMemory>
        requires first { IsNew (L.received first) (L.sent first) (L.faults first) }
        requires second { IsNew (L.received second) (L.sent second) (L.faults second) }
        requires third { IsNew (L.received third) (L.sent third) (L.faults third) }
        ensures binds { IfOk result (λ ports. ports.binds ≡ 0) }
        ensures bound { IfOk result (λ ports. ports.bound ≡ Some []) }
        ensures links { IfOk result (λ ports. ports.links ≡ Some []) }
        ensures clocks { IfOk result (λ ports. ports.clocks ≡ Some []) }
        ensures faults { IfOk result (λ ports. ports.faults ≡ 0) }
    {
        let links = three_links(alloc, first, second, third)?;
        let clocks = three_clocks(alloc, moments)?;
        let bound = Vec::with_capacity(alloc, ROOM)?;
        let links_back = Vec::with_capacity(alloc, ROOM)?;
        let clocks_back = Vec::with_capacity(alloc, ROOM)?;
        Ok(MemoryPorts {
            links,
            clocks,
            failing,
            binds: 0,
            bound,
            bound_lost: false,
            links_back,
            links_lost: false,
            clocks_back,
            clocks_lost: false,
            faults: 0,
        })
    }

    /// The links that came back, in order; a fourth isn't kept.
    pub fn links(&self) -> &[L]
        ensures { IfSome self.now.links (λ links. result.now ≡ links) }
    {
        self.links_back.as_slice()
    }

    /// How many binds failed, and how many links with a fault came back.
    pub fn faults(&self) -> u64
        ensures { result ≡ self.now.faults }
    {
        self.faults
    }
}

impl<'a, L: CountsFaults + Send + Drop> Ports for MemoryPorts<'a, L> {
    type L = L;

    type C = MemoryClock<'a>;

    ghost binds = { λ p. p.binds };

    ghost bound = { λ p. p.bound };

    ghost links = { λ p. p.links };

    ghost clocks = { λ p. p.clocks };

    ghost faults = { λ p. p.faults };

    fn bind(&mut self) -> Result<(L, Peer), Failed> {
        self.binds = self.binds.saturating_add(1);
        let fails = self.failing.contains(&self.binds);
        match self.links.pop() {
            Some(link) => {
                if !fails {
                    let peer = link.peer();
                    keep_address(&mut self.bound, &mut self.bound_lost, peer);
                    return Ok((link, peer));
                }
            }
            None => {}
        }
        self.faults = self.faults.saturating_add(1);
        Err(Failed)
    }

    fn clock(&mut self) -> MemoryClock<'a> {
        match self.clocks.pop() {
            Some(clock) => clock,
            None => MemoryClock::new(&[]),
        }
    }

    fn unbind(&mut self, link: L) {
        if link.fault_count() > 0 {
            self.faults = self.faults.saturating_add(1);
        }
        if self.links_back.len() < ROOM {
            self.links_back.push_reserved(link);
        } else {
            self.links_lost = true;
        }
    }

    fn unclock(&mut self, clock: MemoryClock<'a>) {
        if self.clocks_back.len() < ROOM {
            self.clocks_back.push_reserved(clock);
        } else {
            self.clocks_lost = true;
        }
    }
}
