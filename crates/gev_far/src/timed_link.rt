ghost use Rattle.std.specs.Prelude.{◌≡◌, ◌≤◌, length, IfOk, IfSome, OnErr};
ghost use Rattle.gev_links.specs.Faults.{Rose};
ghost use Rattle.gev_links.specs.Links.{answer_of, receive_room};
ghost use Rattle.gev_links.specs.Moments.{Tells};

use gev_links::{Failed, Link};
use gev_types::Peer;

/// A link that also receives for as long as it's told.
pub trait TimedLink: Link {
    /// Receives as `recv` does. Where no datagram is there it waits until one comes, for at most so many milliseconds; with 0
    /// it doesn't wait.
    fn recv_within(&mut self, out: &mut [u8], millis: u32) -> Result<Option<(usize, Peer)>, Failed>
        requires room { length out.old ≡ receive_room }
        ensures count { IfOk result (λ came. IfSome came (λ datagram. datagram.0 ≤ length out.old)) }
        ensures received { Tells (Self.received self.old) (Self.received self.new) (answer_of result out.new) }
        ensures sent { Self.sent self.new ≡ Self.sent self.old }
        ensures no_fault { IfOk result (λ _. Self.faults self.new ≡ Self.faults self.old) }
        ensures failed { OnErr result (Rose (Self.faults self.old) (Self.faults self.new)) }
        ensures never_falls { Self.faults self.old ≤ Self.faults self.new }
        ensures address { Self.address self.new ≡ Self.address self.old };
}
