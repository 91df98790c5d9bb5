ghost use Rattle.std.specs.Prelude.{◌≡◌, ◌≤◌, length, IfOk, IfSome, OnErr};
ghost use Rattle.gev_links.specs.Faults.{Rose};

use gev_links::{Failed, Link};
use gev_types::Peer;

/// A link whose next datagram can be looked at, and that waits for datagrams or not.
pub trait PeekLink: Link {
    /// Puts the datagram that waits first into the front of `out`, and answers how many bytes of it are there
    /// and who sent it; None where none waits. The datagram stays for the next receive. Of what is shown
    /// nothing is promised.
    fn peek(&mut self, out: &mut [u8]) -> Result<Option<(usize, Peer)>, Failed>
        ensures count { IfOk result (λ came. IfSome came (λ datagram. datagram.0 ≤ length out.old)) }
        ensures received { Self.received self.new ≡ Self.received self.old }
        ensures sent { Self.sent self.new ≡ Self.sent self.old }
        ensures no_fault { IfOk result (λ _. Self.faults self.new ≡ Self.faults self.old) }
        ensures failed { OnErr result (Rose (Self.faults self.old) (Self.faults self.new)) }
        ensures never_falls { Self.faults self.old ≤ Self.faults self.new }
        ensures address { Self.address self.new ≡ Self.address self.old };

    /// Whether from now on a receive and a look that find nothing wait a little for a datagram, or answer at
    /// once.
    fn set_waiting(&mut self, waits: bool)
        ensures received { Self.received self.new ≡ Self.received self.old }
        ensures sent { Self.sent self.new ≡ Self.sent self.old }
        ensures faults { Self.faults self.new ≡ Self.faults self.old }
        ensures address { Self.address self.new ≡ Self.address self.old };
}
