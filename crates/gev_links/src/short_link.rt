ghost use Rattle.std.specs.Prelude.{◌≡◌, ◌≤◌, length, IfOk, IfSome, OnErr};
ghost use Rattle.gev_links.specs.Faults.{Rose};
ghost use Rattle.gev_links.specs.Links.{answer_of, tape_room};
ghost use Rattle.gev_links.specs.Moments.{Tells};

use crate::failed::Failed;
use crate::link::Link;
use gev_types::Peer;

/// A link that also receives into a short slice, for a tape that keeps what it hears. Whoever takes a `Link`
/// can't do so, and hears each datagram in 9,000 bytes.
pub trait ShortLink: Link {
    /// Receives as `recv` does, into a slice of 1,600 bytes: a longer datagram is cut to them.
    fn recv_front(&mut self, out: &mut [u8]) -> Result<Option<(usize, Peer)>, Failed>
        requires room { length out.old ≡ tape_room }
        ensures count { IfOk result (λ came. IfSome came (λ datagram. datagram.0 ≤ length out.old)) }
        ensures received { Tells (Self.received self.old) (Self.received self.new) (answer_of result out.new) }
        ensures sent { Self.sent self.new ≡ Self.sent self.old }
        ensures no_fault { IfOk result (λ _. Self.faults self.new ≡ Self.faults self.old) }
        ensures failed { OnErr result (Rose (Self.faults self.old) (Self.faults self.new)) }
        ensures never_falls { Self.faults self.old ≤ Self.faults self.new }
        ensures address { Self.address self.new ≡ Self.address self.old };
}
