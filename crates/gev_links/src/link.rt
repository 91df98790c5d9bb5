ghost use Rattle.std.specs.Prelude.{◌≡◌, ◌≤◌, ℕ, List, [], ◌∷◌, length, Option, IfOk, IfSome, OnOk, OnErr};
ghost use Rattle.gev_links.specs.Faults.{Rose};
ghost use Rattle.gev_links.specs.Links.{Address, Answer, answer_of, receive_room, Adds};
ghost use Rattle.gev_links.specs.Moments.{Tells};

use crate::failed::Failed;
use gev_types::Peer;

/// Where datagrams come from and go to, under an address of its own.
pub trait Link {
    /// What the receives gave, in order, where the link tells it. A receive that failed or got nothing
    /// is told too.
    ghost received: { Self → Option (List Answer) };

    /// The datagrams that were sent, in order, where the link tells them.
    ghost sent: { Self → Option (List (Address × List ℕ)) };

    /// How many calls failed. It rises in a call that fails and in no other, and stands still at the
    /// counter's end.
    ghost faults: { Self → ℕ };

    /// The link's own address.
    ghost address: { Self → Address };

    /// Sends one datagram. A call that failed sent none.
    fn send(&mut self, peer: Peer, bytes: &[u8]) -> Result<(), Failed>
        ensures sent { OnOk result (Adds (sent self.old) (sent self.new) ((peer, bytes.now) ∷ [])) }
        ensures unsent { OnErr result (sent self.new ≡ sent self.old) }
        ensures received { received self.new ≡ received self.old }
        ensures no_fault { OnOk result (faults self.new ≡ faults self.old) }
        ensures failed { OnErr result (Rose (faults self.old) (faults self.new)) }
        ensures never_falls { faults self.old ≤ faults self.new }
        ensures address { address self.new ≡ address self.old };

    /// Puts one datagram into the front of `out`, which has 9,000 bytes, and answers how many bytes it has and
    /// who sent it; None where none came in this call. A longer datagram is cut to the length of `out`.
    fn recv(&mut self, out: &mut [u8]) -> Result<Option<(usize, Peer)>, Failed>
        requires room { length out.old ≡ receive_room }
        ensures count { IfOk result (λ came. IfSome came (λ datagram. datagram.0 ≤ length out.old)) }
        ensures received { Tells (received self.old) (received self.new) (answer_of result out.new) }
        ensures sent { sent self.new ≡ sent self.old }
        ensures no_fault { IfOk result (λ _. faults self.new ≡ faults self.old) }
        ensures failed { OnErr result (Rose (faults self.old) (faults self.new)) }
        ensures never_falls { faults self.old ≤ faults self.new }
        ensures address { address self.new ≡ address self.old };

    /// The link's own address.
    fn peer(&self) -> Peer
        ensures { result ≡ address self.now };
}
