ghost use Rattle.std.specs.Prelude.{◌≡◌, option_map};
ghost use Rattle.gvcp_wire.specs.Reading.{ack_reading};
ghost use Rattle.link_filters.specs.Reads.{has_memory, lacks_memory, with_memory, heard_since, HasTold};

use crate::asked::AskedFor;
use gev_far::PeekLink;
use gev_links::{Failed, Link};
use gev_types::Peer;
use gvcp_wire::codes::READMEM_ACK;
use gvcp_wire::{Status, parse_ack};
use std::marker::{Model, PhantomData};
use wire_fields::u32_at;

/// A link over which memory is read: an acknowledge of READMEM with success is passed over where its body isn't the
/// address that was asked for and at least the bytes that were asked for. To the caller nothing came then.
#[derive(Drop)]
pub struct MemoryReads<L: Link, A: AskedFor> {
    inner: L,
    address: u32,
    count: u16,
    asked: PhantomData<A>,
}

impl<L: Link, A: AskedFor> Model for MemoryReads<L, A> {
    ghost use Rattle.std.specs.Prelude.{◌≡◌};
    ghost use Rattle.link_filters.specs.Reads.{FilterState, HasToldSome};

    ghost Value = { FilterState L };

    ghost view = { λ f. record { inner = f.inner } };

    ghost invariant = { λ f. (f.address ≡ A.address) × (f.count ≡ A.count) × HasToldSome A.before (L.received f.inner) };
}

// Whether the body has what was asked for.
fn has_memory(address: u32, count: u16, body: &[u8]) -> bool
    ensures { result ≡ has_memory address count body.now }
{
    body.len() >= 4 + usize::from(count) && u32_at(body, 0) == address
}

// Whether the datagram is to be passed over.
fn lacks_memory(address: u32, count: u16, bytes: &[u8]) -> bool
    ensures { result ≡ lacks_memory address count (ack_reading bytes.now) }
{
    match parse_ack(bytes) {
        Ok(ack) => {
            ack.status == Status::Success.code()
                && ack.code == READMEM_ACK
                && !has_memory(address, count, ack.body)
        }
        Err(_) => false,
    }
}

impl<L: Link, A: AskedFor> MemoryReads<L, A> {
    /// A link over which so many bytes are read from this address on.
    pub fn new(inner: L, address: u32, count: u16) -> MemoryReads<L, A>
        requires address { address ≡ A.address }
        requires count { count ≡ A.count }
        requires before { HasTold A.before (L.received inner) }
        ensures inner { result.inner ≡ inner }
        // What the inner link told before is told as it came.
        ensures received { option_map (heard_since A.before (with_memory A.address A.count)) (L.received inner) ≡ L.received inner }
    {
        MemoryReads {
            inner,
            address,
            count,
            asked: PhantomData,
        }
    }

    /// The link it stands on.
    pub fn into_inner(self) -> L
        ensures { result ≡ self.inner }
    {
        self.inner
    }
}

impl<L: Link, A: AskedFor> Link for MemoryReads<L, A> {
    ghost received = { λ f. option_map (heard_since A.before (with_memory A.address A.count)) (L.received f.inner) };

    ghost sent = { λ f. L.sent f.inner };

    ghost faults = { λ f. L.faults f.inner };

    ghost address = { λ f. L.address f.inner };

    fn send(&mut self, peer: Peer, bytes: &[u8]) -> Result<(), Failed> {
        self.inner.send(peer, bytes)
    }

    fn recv(&mut self, out: &mut [u8]) -> Result<Option<(usize, Peer)>, Failed> {
        match self.inner.recv(out) {
            Ok(Some((len, peer))) => {
                if lacks_memory(self.address, self.count, &out[..len]) {
                    return Ok(None);
                }
                Ok(Some((len, peer)))
            }
            Ok(None) => Ok(None),
            Err(failed) => Err(failed),
        }
    }

    fn peer(&self) -> Peer {
        self.inner.peer()
    }
}

impl<L: PeekLink, A: AskedFor> PeekLink for MemoryReads<L, A> {
    /// A datagram that is passed over is shown too.
    fn peek(&mut self, out: &mut [u8]) -> Result<Option<(usize, Peer)>, Failed> {
        self.inner.peek(out)
    }

    fn set_waiting(&mut self, waits: bool) {
        self.inner.set_waiting(waits);
    }
}
