ghost use Rattle.std.specs.Prelude.{◌≡◌, ◌≤◌, [], ◌∷◌, ◌++◌, length, Some, IfOk, IfSome, OnOk, OnErr};
ghost use Rattle.gev_links.specs.Faults.{Rose};
ghost use Rattle.gev_links.specs.Links.{answer_of};
ghost use Rattle.gev_links.specs.Moments.{Tells};

use crate::failed::Failed;
use crate::fault_count::CountsFaults;
use crate::link::Link;
use crate::receptions::Receptions;
use crate::short_link::ShortLink;
use gev_types::{Bytes, NoMemory, Peer};
use std::alloc::Global;
use std::marker::Model;

/// A link in memory, some calls of which fail. It answers its receives from a list, and keeps what is
/// sent. Want of memory is a fault too.
#[derive(Drop)]
pub struct MemoryLink<'a> {
    peer: Peer,
    receptions: Receptions<'a>,
    failing_receives: &'a [u64],
    receives: u64,
    sent: Vec<(Peer, Bytes)>,
    failing_sends: &'a [u64],
    sends: u64,
    room: usize,
    faults: u64,
}

impl<'a> Model for MemoryLink<'a> {
    ghost use Rattle.std.specs.Prelude.{◌≤◌, vec_capacity};
    ghost use Rattle.gev_links.specs.LinkState.{LinkState};

    ghost Value = { LinkState };

    ghost view = { λ l. record { address = l.peer; received = l.receptions; sent = l.sent.items; faults = l.faults } };

    ghost invariant = { λ l. l.room ≤ vec_capacity l.sent };
}

impl<'a> MemoryLink<'a> {
    /// A link with this address that gives these answers one after the other, and then None. It keeps at
    /// most `room` datagrams; a send beyond them fails. The receives and the sends whose numbers are among
    /// the failing ones fail; each kind counts from 1. A receive that fails uses up a member of the list,
    /// and one behind the list's end doesn't fail.
    pub fn new(
        alloc: Global,
        peer: Peer,
        answers: &'a [Option<(&'a [u8], Peer)>],
        failing_receives: &'a [u64],
        failing_sends: &'a [u64],
        room: usize,
    ) -> Result<MemoryLink<'a>, NoMemory>
        ensures address { IfOk result (λ link. link.address ≡ peer) }
        ensures received { IfOk result (λ link. link.received ≡ Some []) }
        ensures sent { IfOk result (λ link. link.sent ≡ []) }
        ensures faults { IfOk result (λ link. link.faults ≡ 0) }
    {
        let receptions = Receptions::new(alloc, answers)?;
        let sent = Vec::with_capacity(alloc, room)?;
        Ok(MemoryLink {
            peer,
            receptions,
            failing_receives,
            receives: 0,
            sent,
            failing_sends,
            sends: 0,
            room,
            faults: 0,
        })
    }

    /// The datagrams that were sent, in order, each with whom it was sent to.
    pub fn sent(&self) -> &[(Peer, Bytes)]
        ensures { result.now ≡ self.now.sent }
    {
        self.sent.as_slice()
    }

    /// Puts what the next receive is to give into the front of `out`, and leaves it for that receive. Where
    /// that one is to fail, this fails too.
    pub fn peek(&mut self, out: &mut [u8]) -> Result<Option<(usize, Peer)>, Failed>
        ensures count { IfOk result (λ came. IfSome came (λ datagram. datagram.0 ≤ length out.old)) }
        ensures rest { self.new ≡ record self.old { faults = self.new.faults } }
        ensures no_fault { IfOk result (λ _. self.new.faults ≡ self.old.faults) }
        ensures failed { OnErr result (Rose self.old.faults self.new.faults) }
        ensures never_falls { self.old.faults ≤ self.new.faults }
    {
        let next = self.receives.saturating_add(1);
        if self.failing_receives.contains(&next) && !self.receptions.are_spent() {
            return Err(self.fail());
        }
        Ok(self.receptions.show_into(out))
    }

    /// Keeps a datagram that is sent.
    fn keep(&mut self, peer: Peer, bytes: &[u8]) -> Result<(), NoMemory>
        ensures kept { OnOk result (self.new ≡ record self.old { sent = self.old.sent ++ (peer, bytes.now) ∷ [] }) }
        ensures unkept { OnErr result (self.new ≡ self.old) }
    {
        if self.sent.len() >= self.room {
            return Err(NoMemory);
        }
        let copy = bytes.to_vec(*self.sent.allocator())?;
        self.sent.push_reserved((peer, Bytes::of(copy)));
        Ok(())
    }

    /// Counts a fault.
    fn fail(&mut self) -> Failed
        ensures rose { Rose self.old.faults self.new.faults }
        ensures never_falls { self.old.faults ≤ self.new.faults }
        ensures rest { self.new ≡ record self.old { faults = self.new.faults } }
    {
        self.faults = self.faults.saturating_add(1);
        Failed
    }

    /// Receives into a slice of any length.
    fn receive(&mut self, out: &mut [u8]) -> Result<Option<(usize, Peer)>, Failed>
        ensures count { IfOk result (λ came. IfSome came (λ datagram. datagram.0 ≤ length out.old)) }
        ensures received { Tells self.old.received self.new.received (answer_of result out.new) }
        ensures sent { self.new.sent ≡ self.old.sent }
        ensures no_fault { IfOk result (λ _. self.new.faults ≡ self.old.faults) }
        ensures failed { OnErr result (Rose self.old.faults self.new.faults) }
        ensures never_falls { self.old.faults ≤ self.new.faults }
        ensures address { self.new.address ≡ self.old.address }
    {
        self.receives = self.receives.saturating_add(1);
        if self.failing_receives.contains(&self.receives) && self.receptions.lose() {
            self.faults = self.faults.saturating_add(1);
            return Err(Failed);
        }
        Ok(self.receptions.answer_into(out))
    }
}

impl<'a> Link for MemoryLink<'a> {
    ghost received = { λ l. l.received };

    ghost sent = { λ l. Some l.sent };

    ghost faults = { λ l. l.faults };

    ghost address = { λ l. l.address };

    fn send(&mut self, peer: Peer, bytes: &[u8]) -> Result<(), Failed> {
        self.sends = self.sends.saturating_add(1);
        if self.failing_sends.contains(&self.sends) {
            return Err(self.fail());
        }
        match self.keep(peer, bytes) {
            Ok(()) => Ok(()),
            Err(_) => Err(self.fail()),
        }
    }

    fn recv(&mut self, out: &mut [u8]) -> Result<Option<(usize, Peer)>, Failed> {
        self.receive(out)
    }

    fn peer(&self) -> Peer {
        self.peer
    }
}

impl<'a> ShortLink for MemoryLink<'a> {
    fn recv_front(&mut self, out: &mut [u8]) -> Result<Option<(usize, Peer)>, Failed> {
        self.receive(out)
    }
}

impl<'a> CountsFaults for MemoryLink<'a> {
    fn fault_count(&self) -> u64 {
        self.faults
    }
}
