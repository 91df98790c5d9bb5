//! The forms in memory: links show the next member of their list, and ports give their links in order.

ghost use Rattle.std.specs.Prelude.{⊤};

use crate::far_ports::FarPorts;
use crate::peek_link::PeekLink;
use crate::timed_link::TimedLink;
use gev_links::{CountsFaults, Failed, Link, MemoryLink, MemoryPorts, Ports};
use gev_types::Peer;

impl<'a> PeekLink for MemoryLink<'a> {
    fn peek(&mut self, out: &mut [u8]) -> Result<Option<(usize, Peer)>, Failed> {
        MemoryLink::peek(self, out)
    }

    /// A link in memory never waits.
    fn set_waiting(&mut self, _waits: bool) {}
}

impl<'a> TimedLink for MemoryLink<'a> {
    fn recv_within(
        &mut self,
        out: &mut [u8],
        _millis: u32,
    ) -> Result<Option<(usize, Peer)>, Failed> {
        self.recv(out)
    }
}

impl<'a, L: CountsFaults + Send + Drop> FarPorts for MemoryPorts<'a, L> {
    ghost stands_at = { λ asked bound. ⊤ };

    fn bind_towards(&mut self, _peer: Peer) -> Result<(L, Peer), Failed> {
        self.bind()
    }

    fn bind_at(&mut self, _own: Peer) -> Result<(L, Peer), Failed> {
        self.bind()
    }

    fn bind_broadcasting(&mut self) -> Result<(L, Peer), Failed> {
        self.bind()
    }
}
