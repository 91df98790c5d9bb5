ghost use Rattle.std.specs.Prelude.{◌≡◌, true};
ghost use Rattle.std.specs.Bool.{OnTrue};
ghost use Rattle.gev_links.specs.Told.{Drops, IsSpent};

use gev_links::{Clock, Source};

/// How many milliseconds lie between two looks at the input.
const PAUSE: u64 = 100;

/// When an input is looked at whose end ends a run, or that none is.
#[derive(Drop)]
pub struct InputWatch<T: Drop> {
    /// The clock by which looks are made at most every 100 ms.
    pub clock: T,
    /// Whether the input is looked at.
    pub on: bool,
    /// The moment of the next look.
    pub next: u64,
}

impl<T: Clock + Drop> InputWatch<T> {
    /// Whether the input is seen to have ended. It's looked at at most every 100 ms, and never waited for; what it
    /// holds is dropped.
    pub fn has_ended<I: Source>(&mut self, input: &mut I) -> bool
        ensures ended { OnTrue result (IsSpent (I.left input.new)) }
        ensures watched { OnTrue result (self.old.on ≡ true) }
        ensures dropped { Drops (I.left input.old) (I.left input.new) }
        ensures faults { I.faults input.new ≡ I.faults input.old }
        ensures on { self.new.on ≡ self.old.on }
    {
        if !self.on {
            return false;
        }
        let now = self.clock.now();
        if now < self.next {
            return false;
        }
        self.next = now.saturating_add(PAUSE);
        input.has_ended()
    }
}
