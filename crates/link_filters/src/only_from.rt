ghost use Rattle.std.specs.Prelude.{◌≡◌, option_map};
ghost use Rattle.gev_links.specs.Links.{IsBlank};
ghost use Rattle.link_filters.specs.Strangers.{all_from, CountsStrangers};

use crate::fixed::Heard;
use gev_far::PeekLink;
use gev_links::{Failed, Link};
use gev_types::Peer;
use std::marker::{Model, PhantomData};

/// A link that hears one address, from any port. A datagram from another address is received, passed over and
/// counted: to the caller nothing came.
#[derive(Drop)]
pub struct OnlyFrom<L: Link, H: Heard> {
    inner: L,
    source: u32,
    strangers: u64,
    heard: PhantomData<H>,
}

impl<L: Link, H: Heard> Model for OnlyFrom<L, H> {
    ghost use Rattle.std.specs.Prelude.{◌≡◌};
    ghost use Rattle.link_filters.specs.Strangers.{CountsStrangers};
    ghost use Rattle.link_filters.specs.States.{OnlyFromState};

    ghost Value = { OnlyFromState L };

    ghost view = { λ f. record { inner = f.inner; strangers = f.strangers } };

    ghost invariant = { λ f. (f.source ≡ H.source) × CountsStrangers H.source (L.received f.inner) f.strangers };
}

impl<L: Link, H: Heard> OnlyFrom<L, H> {
    /// A link that hears this address, over one that told nothing yet.
    pub fn new(inner: L, source: u32) -> OnlyFrom<L, H>
        requires blank { IsBlank (L.received inner) }
        requires source { source ≡ H.source }
        ensures inner { result.inner ≡ inner }
        ensures strangers { result.strangers ≡ 0 }
    {
        OnlyFrom {
            inner,
            source,
            strangers: 0,
            heard: PhantomData,
        }
    }

    /// The link it stands on.
    pub fn into_inner(self) -> L
        ensures { result ≡ self.inner }
    {
        self.inner
    }

    /// How many datagrams of other addresses were passed over. The count stands still at its greatest value.
    pub fn strangers(&self) -> u64
        ensures value { result ≡ self.now.strangers }
        ensures counted { CountsStrangers H.source (L.received self.now.inner) result }
    {
        self.strangers
    }
}

impl<L: Link, H: Heard> Link for OnlyFrom<L, H> {
    ghost received = { λ f. option_map (all_from H.source) (L.received f.inner) };

    ghost sent = { λ f. L.sent f.inner };

    ghost faults = { λ f. L.faults f.inner };

    ghost address = { λ f. L.address f.inner };

    fn send(&mut self, peer: Peer, bytes: &[u8]) -> Result<(), Failed> {
        self.inner.send(peer, bytes)
    }

    fn recv(&mut self, out: &mut [u8]) -> Result<Option<(usize, Peer)>, Failed> {
        match self.inner.recv(out) {
            Ok(Some((count, peer))) => {
                if peer.address == self.source {
                    return Ok(Some((count, peer)));
                }
                self.strangers = self.strangers.saturating_add(1);
                Ok(None)
            }
            Ok(None) => Ok(None),
            Err(failed) => Err(failed),
        }
    }

    fn peer(&self) -> Peer {
        self.inner.peer()
    }
}

impl<L: PeekLink, H: Heard> PeekLink for OnlyFrom<L, H> {
    /// A stranger's datagram is shown too: the next receive passes it over.
    fn peek(&mut self, out: &mut [u8]) -> Result<Option<(usize, Peer)>, Failed> {
        self.inner.peek(out)
    }

    fn set_waiting(&mut self, waits: bool) {
        self.inner.set_waiting(waits);
    }
}
