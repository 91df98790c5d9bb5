//! A stream of which the last datagram that is no packet is remembered.

ghost use Rattle.std.specs.Prelude.{◌≡◌, ◌≤◌, length};

use gev_far::PeekLink;
use gev_links::{Failed, Link};
use gev_types::Peer;
use gvsp_std::{StdError, Widener};
use gvsp_wire::{WireError, parse};
use std::alloc::{AllocError, Global};

/// The room for a datagram, in bytes.
const ROOM: usize = 9000;

/// The room for a datagram that was widened.
const WIDE_ROOM: usize = ROOM + 12;

/// Why a datagram is no packet.
#[derive(Clone, Copy)]
pub(crate) enum Foreign {
    /// It can't be read as one.
    Unread(WireError),
    /// It has standard identifiers, and the block with this one would be before the first.
    Before(u16),
}

/// Why bytes are no packet, if they aren't.
fn refusal(bytes: &[u8]) -> Option<Foreign> {
    match parse(bytes) {
        Ok(_) => None,
        Err(error) => Some(Foreign::Unread(error)),
    }
}

/// Why a datagram is no packet, if it isn't; of one with standard identifiers its form with extended ones.
fn foreign_in(bytes: &[u8]) -> Option<Foreign>
    requires { length bytes.now ≤ 9000 }
{
    let mut wide = [0; WIDE_ROOM];
    let mut widener = Widener::new();
    match widener.widen(bytes, &mut wide) {
        Ok(len) => refusal(&wide[..len.min(ROOM)]),
        Err(StdError::Short(_)) => refusal(bytes),
        Err(StdError::Extended) => refusal(bytes),
        Err(StdError::Zero) => Some(Foreign::Unread(WireError::ZeroBlock)),
        Err(StdError::Before(id)) => Some(Foreign::Before(id)),
    }
}

/// What is said of bytes that can't be read.
fn error_text(alloc: Global, error: WireError) -> Result<String, AllocError> {
    match error {
        WireError::Short(len) => format!(in alloc; "short={len}"),
        WireError::Standard => format!(in alloc; "standard"),
        WireError::Format(kind) => format!(in alloc; "format={kind}"),
        WireError::ZeroBlock => format!(in alloc; "zero-block"),
        WireError::BadId(id) => format!(in alloc; "bad-id={id}"),
        WireError::PayloadType(kind) => format!(in alloc; "payload-type=0x{kind:04x}"),
        WireError::FrameSize => format!(in alloc; "frame-size"),
    }
}

/// What is said of a datagram that is no packet.
fn cause_text(alloc: Global, foreign: Foreign) -> Result<String, AllocError> {
    match foreign {
        Foreign::Unread(error) => error_text(alloc, error),
        Foreign::Before(id) => format!(in alloc; "before={id}"),
    }
}

/// The line for standard error.
pub(crate) fn foreign_line(alloc: Global, foreign: Foreign) -> Result<String, AllocError> {
    let cause = cause_text(alloc, foreign)?;
    format!(in alloc; "gevacq: no leader came, the last foreign datagram: {cause}\n")
}

/// A stream of which the last datagram that is no packet is remembered. It's heard as it comes.
#[derive(Drop)]
pub(crate) struct Noticing<L: Link> {
    inner: L,
    last: Option<Foreign>,
}

impl<L: Link> Noticing<L> {
    /// A link that stands on this one.
    pub(crate) fn new(inner: L) -> Noticing<L>
        ensures { result.inner ≡ inner }
    {
        Noticing { inner, last: None }
    }

    /// The link it stands on, and why the last datagram that is no packet isn't one.
    pub(crate) fn apart(self) -> (L, Option<Foreign>)
        ensures { result.0 ≡ self.inner }
    {
        let Noticing { inner, last } = self;
        (inner, last)
    }
}

impl<L: Link> Link for Noticing<L> {
    ghost received = { λ f. L.received f.inner };

    ghost sent = { λ f. L.sent f.inner };

    ghost faults = { λ f. L.faults f.inner };

    ghost address = { λ f. L.address f.inner };

    fn send(&mut self, peer: Peer, bytes: &[u8]) -> Result<(), Failed> {
        self.inner.send(peer, bytes)
    }

    fn recv(&mut self, out: &mut [u8]) -> Result<Option<(usize, Peer)>, Failed> {
        let came = self.inner.recv(out);
        if let Ok(Some((count, _))) = &came {
            let found = foreign_in(&out[..*count]);
            if found.is_some() {
                self.last = found;
            }
        }
        came
    }

    fn peer(&self) -> Peer {
        self.inner.peer()
    }
}

impl<L: PeekLink> PeekLink for Noticing<L> {
    fn peek(&mut self, out: &mut [u8]) -> Result<Option<(usize, Peer)>, Failed> {
        self.inner.peek(out)
    }

    fn set_waiting(&mut self, waits: bool) {
        self.inner.set_waiting(waits);
    }
}
