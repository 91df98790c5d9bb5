ghost use Rattle.std.specs.Prelude.{◌≡◌, [], Some, None, IfOk};

use crate::failed::Failed;
use crate::fault_count::CountsFaults;
use crate::link::Link;
use crate::receptions::Receptions;
use crate::short_link::ShortLink;
use gev_types::{NoMemory, Peer};
use std::alloc::Global;
use std::marker::Model;

/// A link in memory that answers its receives from a list, and discards what is sent. It tells nothing
/// of the sends, and never fails.
#[derive(Drop)]
pub struct DiscardingLink<'a> {
    peer: Peer,
    receptions: Receptions<'a>,
}

impl<'a> Model for DiscardingLink<'a> {
    ghost use Rattle.gev_links.specs.LinkState.{DiscardingState};

    ghost Value = { DiscardingState };

    ghost view = { λ l. record { address = l.peer; received = l.receptions } };
}

impl<'a> DiscardingLink<'a> {
    /// A link with this address that gives these answers one after the other, and then None.
    pub fn new(
        alloc: Global,
        peer: Peer,
        answers: &'a [Option<(&'a [u8], Peer)>],
    ) -> Result<DiscardingLink<'a>, NoMemory>
        ensures address { IfOk result (λ link. link.address ≡ peer) }
        ensures received { IfOk result (λ link. link.received ≡ Some []) }
    {
        let receptions = Receptions::new(alloc, answers)?;
        Ok(DiscardingLink { peer, receptions })
    }
}

impl<'a> Link for DiscardingLink<'a> {
    ghost received = { λ l. l.received };

    ghost sent = { λ _. None };

    ghost faults = { λ _. 0 };

    ghost address = { λ l. l.address };

    fn send(&mut self, _peer: Peer, _bytes: &[u8]) -> Result<(), Failed> {
        Ok(())
    }

    fn recv(&mut self, out: &mut [u8]) -> Result<Option<(usize, Peer)>, Failed> {
        Ok(self.receptions.answer_into(out))
    }

    fn peer(&self) -> Peer {
        self.peer
    }
}

impl<'a> ShortLink for DiscardingLink<'a> {
    fn recv_front(&mut self, out: &mut [u8]) -> Result<Option<(usize, Peer)>, Failed> {
        Ok(self.receptions.answer_into(out))
    }
}

impl<'a> CountsFaults for DiscardingLink<'a> {
    fn fault_count(&self) -> u64 {
        0
    }
}
