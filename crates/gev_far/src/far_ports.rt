ghost use Rattle.std.specs.Prelude.{◌≡◌, ◌≤◌, IfOk, OnErr};
ghost use Rattle.gev_links.specs.Faults.{Rose};
ghost use Rattle.gev_links.specs.Given.{one_more, ToldOfThree};
ghost use Rattle.gev_links.specs.Links.{Address, IsBlank};

use crate::drops::Drops;
use gev_links::{Failed, Ports};
use gev_types::Peer;

/// Ports whose links reach the network. A call binds one link, as `bind` does, and counts as one of its calls; the
/// link's receives wait a little where nothing came.
pub trait FarPorts: Ports {
    /// Whether a link that was asked for at the first address may have the second: just the first one, where the
    /// ports reach the network; ports in memory give links with addresses of their own.
    ghost stands_at: { Address → Address → Type 0 };

    /// A new link, at that address of this machine from which datagrams go to this peer, with a port of its own.
    fn bind_towards(&mut self, peer: Peer) -> Result<(Self::L, Peer), Failed>
        ensures unheard { IfOk result (λ bound. IsBlank (Self.L.received bound.0)) }
        ensures unsent { IfOk result (λ bound. IsBlank (Self.L.sent bound.0)) }
        ensures no_fault_of_it { IfOk result (λ bound. Self.L.faults bound.0 ≡ 0) }
        ensures address { IfOk result (λ bound. Self.L.address bound.0 ≡ bound.1) }
        ensures bound { IfOk result (λ new. ToldOfThree (Self.bound self.old) (Self.bound self.new) new.1) }
        ensures unbound { OnErr result (Self.bound self.new ≡ Self.bound self.old) }
        ensures binds { Self.binds self.new ≡ one_more (Self.binds self.old) }
        ensures links { Self.links self.new ≡ Self.links self.old }
        ensures clocks { Self.clocks self.new ≡ Self.clocks self.old }
        ensures no_fault { IfOk result (λ _. Self.faults self.new ≡ Self.faults self.old) }
        ensures failed { OnErr result (Rose (Self.faults self.old) (Self.faults self.new)) }
        ensures never_falls { Self.faults self.old ≤ Self.faults self.new };

    /// A new link at this address of this machine and this port, which isn't 0.
    fn bind_at(&mut self, own: Peer) -> Result<(Self::L, Peer), Failed>
        ensures at { IfOk result (λ bound. stands_at own bound.1) }
        ensures unheard { IfOk result (λ bound. IsBlank (Self.L.received bound.0)) }
        ensures unsent { IfOk result (λ bound. IsBlank (Self.L.sent bound.0)) }
        ensures no_fault_of_it { IfOk result (λ bound. Self.L.faults bound.0 ≡ 0) }
        ensures address { IfOk result (λ bound. Self.L.address bound.0 ≡ bound.1) }
        ensures bound { IfOk result (λ new. ToldOfThree (Self.bound self.old) (Self.bound self.new) new.1) }
        ensures unbound { OnErr result (Self.bound self.new ≡ Self.bound self.old) }
        ensures binds { Self.binds self.new ≡ one_more (Self.binds self.old) }
        ensures links { Self.links self.new ≡ Self.links self.old }
        ensures clocks { Self.clocks self.new ≡ Self.clocks self.old }
        ensures no_fault { IfOk result (λ _. Self.faults self.new ≡ Self.faults self.old) }
        ensures failed { OnErr result (Rose (Self.faults self.old) (Self.faults self.new)) }
        ensures never_falls { Self.faults self.old ≤ Self.faults self.new };

    /// A new link at every address of this machine, with a port of its own, which may send to a network's
    /// broadcast address.
    fn bind_broadcasting(&mut self) -> Result<(Self::L, Peer), Failed>
        ensures unheard { IfOk result (λ bound. IsBlank (Self.L.received bound.0)) }
        ensures unsent { IfOk result (λ bound. IsBlank (Self.L.sent bound.0)) }
        ensures no_fault_of_it { IfOk result (λ bound. Self.L.faults bound.0 ≡ 0) }
        ensures address { IfOk result (λ bound. Self.L.address bound.0 ≡ bound.1) }
        ensures bound { IfOk result (λ new. ToldOfThree (Self.bound self.old) (Self.bound self.new) new.1) }
        ensures unbound { OnErr result (Self.bound self.new ≡ Self.bound self.old) }
        ensures binds { Self.binds self.new ≡ one_more (Self.binds self.old) }
        ensures links { Self.links self.new ≡ Self.links self.old }
        ensures clocks { Self.clocks self.new ≡ Self.clocks self.old }
        ensures no_fault { IfOk result (λ _. Self.faults self.new ≡ Self.faults self.old) }
        ensures failed { OnErr result (Rose (Self.faults self.old) (Self.faults self.new)) }
        ensures never_falls { Self.faults self.old ≤ Self.faults self.new };

    /// What the system dropped of this link's datagrams so far, where it tells. Nothing is promised of it.
    fn drops(&self, _link: &Self::L) -> Option<Drops> {
        None
    }
}
