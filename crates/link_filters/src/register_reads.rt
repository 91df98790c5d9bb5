ghost use Rattle.std.specs.Prelude.{◌≡◌, option_map};
ghost use Rattle.gvcp_wire.specs.Reading.{ack_reading};
ghost use Rattle.link_filters.specs.Reads.{lacks_register, with_registers};

use gev_far::PeekLink;
use gev_links::{Failed, Link};
use gev_types::Peer;
use gvcp_wire::codes::READREG_ACK;
use gvcp_wire::{Status, parse_ack};
use std::marker::Model;

// The bytes of a register.
const REGISTER_SIZE: usize = 4;

/// A link over which one register is read at a time: an acknowledge of READREG with success is passed over where its
/// body isn't 4 bytes. To the caller nothing came then.
#[derive(Drop)]
pub struct RegisterReads<L: Link> {
    inner: L,
}

impl<L: Link> Model for RegisterReads<L> {
    ghost use Rattle.link_filters.specs.Reads.{FilterState};

    ghost Value = { FilterState L };

    ghost view = { λ f. record { inner = f.inner } };
}

// Whether the datagram is to be passed over.
fn lacks_register(bytes: &[u8]) -> bool
    ensures { result ≡ lacks_register (ack_reading bytes.now) }
{
    match parse_ack(bytes) {
        Ok(ack) => {
            ack.status == Status::Success.code()
                && ack.code == READREG_ACK
                && ack.body.len() != REGISTER_SIZE
        }
        Err(_) => false,
    }
}

impl<L: Link> RegisterReads<L> {
    /// A link over which one register is read at a time.
    pub fn new(inner: L) -> RegisterReads<L>
        ensures { result.inner ≡ inner }
    {
        RegisterReads { inner }
    }

    /// The link it stands on.
    pub fn into_inner(self) -> L
        ensures { result ≡ self.inner }
    {
        self.inner
    }
}

impl<L: Link> Link for RegisterReads<L> {
    ghost received = { λ f. option_map with_registers (L.received f.inner) };

    ghost sent = { λ f. L.sent f.inner };

    ghost faults = { λ f. L.faults f.inner };

    ghost address = { λ f. L.address f.inner };

    fn send(&mut self, peer: Peer, bytes: &[u8]) -> Result<(), Failed> {
        self.inner.send(peer, bytes)
    }

    fn recv(&mut self, out: &mut [u8]) -> Result<Option<(usize, Peer)>, Failed> {
        match self.inner.recv(out) {
            Ok(Some((len, peer))) => {
                if lacks_register(&out[..len]) {
                    return Ok(None);
                }
                Ok(Some((len, peer)))
            }
            Ok(None) => Ok(None),
            Err(failed) => Err(failed),
        }
    }

    fn peer(&self) -> Peer {
        self.inner.peer()
    }
}

impl<L: PeekLink> PeekLink for RegisterReads<L> {
    /// A datagram that is passed over is shown too.
    fn peek(&mut self, out: &mut [u8]) -> Result<Option<(usize, Peer)>, Failed> {
        self.inner.peek(out)
    }

    fn set_waiting(&mut self, waits: bool) {
        self.inner.set_waiting(waits);
    }
}
