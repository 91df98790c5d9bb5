ghost use Rattle.std.specs.Prelude.{◌≡◌, ◌≤◌, ℕ, List, Option, IfOk, OnErr};
ghost use Rattle.gev_links.specs.Faults.{Rose};
ghost use Rattle.gev_links.specs.Given.{one_more, ToldOfThree, Raises};
ghost use Rattle.gev_links.specs.Links.{Address, IsBlank};

use crate::clock::Clock;
use crate::failed::Failed;
use crate::short_link::ShortLink;
use gev_types::Peer;

/// Where links and clocks come from and go back to. What came back is told of three links and of three
/// clocks at least, and so is the address of each of the first three links that are bound; only a `bind`,
/// `unbind` or `unclock` beyond the third may end the telling.
pub trait Ports {
    type L: ShortLink + Send + Drop;

    type C: Clock + Send + Drop;

    /// How many calls of `bind` were made. It stands still at the counter's end.
    ghost binds: { Self → ℕ };

    /// The addresses of the links that were bound, in order, where the ports tell them.
    ghost bound: { Self → Option (List Address) };

    /// The links that came back, in order, each as it was then, where the ports tell them.
    ghost links: { Self → Option (List Self.L) };

    /// The clocks that came back, in order, each as it was then, where the ports tell them.
    ghost clocks: { Self → Option (List Self.C) };

    /// How many binds failed, and how many links with a fault came back. It stands still at the
    /// counter's end.
    ghost faults: { Self → ℕ };

    /// A new link and its address. It has received and sent nothing, and has no fault.
    fn bind(&mut self) -> Result<(Self::L, Peer), Failed>
        ensures unheard { IfOk result (λ bound. IsBlank (Self.L.received bound.0)) }
        ensures unsent { IfOk result (λ bound. IsBlank (Self.L.sent bound.0)) }
        ensures no_fault_of_it { IfOk result (λ bound. Self.L.faults bound.0 ≡ 0) }
        ensures address { IfOk result (λ bound. Self.L.address bound.0 ≡ bound.1) }
        ensures bound { IfOk result (λ new. ToldOfThree (bound self.old) (bound self.new) new.1) }
        ensures unbound { OnErr result (bound self.new ≡ bound self.old) }
        ensures binds { binds self.new ≡ one_more (binds self.old) }
        ensures links { links self.new ≡ links self.old }
        ensures clocks { clocks self.new ≡ clocks self.old }
        ensures no_fault { IfOk result (λ _. faults self.new ≡ faults self.old) }
        ensures failed { OnErr result (Rose (faults self.old) (faults self.new)) }
        ensures never_falls { faults self.old ≤ faults self.new };

    /// A clock that has told nothing yet.
    fn clock(&mut self) -> Self::C
        ensures untold { IsBlank (Self.C.told result) }
        ensures binds { binds self.new ≡ binds self.old }
        ensures bound { bound self.new ≡ bound self.old }
        ensures links { links self.new ≡ links self.old }
        ensures clocks { clocks self.new ≡ clocks self.old }
        ensures faults { faults self.new ≡ faults self.old };

    /// Takes a link back. The count of faults rises exactly where the link's own is above 0.
    fn unbind(&mut self, link: Self::L)
        ensures binds { binds self.new ≡ binds self.old }
        ensures bound { bound self.new ≡ bound self.old }
        ensures links { ToldOfThree (links self.old) (links self.new) link }
        ensures clocks { clocks self.new ≡ clocks self.old }
        ensures faults { Raises (Self.L.faults link) (faults self.old) (faults self.new) }
        ensures never_falls { faults self.old ≤ faults self.new };

    /// Takes a clock back.
    fn unclock(&mut self, clock: Self::C)
        ensures binds { binds self.new ≡ binds self.old }
        ensures bound { bound self.new ≡ bound self.old }
        ensures links { links self.new ≡ links self.old }
        ensures clocks { ToldOfThree (clocks self.old) (clocks self.new) clock }
        ensures faults { faults self.new ≡ faults self.old };
}
