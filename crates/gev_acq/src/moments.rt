//! Which moment the receiver is told in a turn.

ghost use Rattle.std.specs.Prelude.{◌≡◌, ℕ};
ghost use Rattle.gev_acq.specs.Moments.{begins_at, rise_at, SaysOwn, SaysPaced};

use std::marker::Model;

/// Which moment a reader tells its receiver in a turn, in milliseconds. The client is told the turn's moment always.
pub trait Moments {
    /// The policy before the turn, the turn's moment, the moment that is told, and the policy after.
    ghost says: { Self → ℕ → ℕ → Self → Type 0 };

    /// The moment to tell in a turn of this moment.
    fn tell(&mut self, moment: u64) -> u64
        ensures says { says self.old moment result self.new };
}

/// Tells each turn's own moment, which is the host's.
#[derive(Clone, Copy, Debug, Drop)]
pub struct HostMoments;

impl Moments for HostMoments {
    ghost says = { SaysOwn };

    fn tell(&mut self, moment: u64) -> u64 {
        moment
    }
}

// By how much the receiver's clock rises at most with a reading, in milliseconds.
const MOST_RISE: u64 = 10;

/// The receiver's clock: it rises with each reading as the host's clock did since the reading before, but by at most 10
/// ms. A pause of the program or the machine isn't time then in which a block gets old.
#[derive(Clone, Debug, Drop)]
pub struct Paced {
    // the host's moment at the last reading
    before: u64,
    told: u64,
}

impl Model for Paced {
    ghost use Rattle.gev_acq.specs.Moments.{PacedClock};

    ghost Value = { PacedClock };

    ghost view = { λ c. record { before = c.before; told = c.told } };
}

impl Paced {
    /// A clock that tells this moment, at which the host's stands.
    pub fn new(moment: u64) -> Paced
        ensures begins { result ≡ begins_at moment }
    {
        Paced {
            before: moment,
            told: moment,
        }
    }

    /// By how much the clock rises with a reading of this moment, in milliseconds.
    fn rise(&self, moment: u64) -> u64
        ensures { result ≡ rise_at self.now moment }
    {
        moment.saturating_sub(self.before).min(MOST_RISE)
    }
}

impl Moments for Paced {
    ghost says = { SaysPaced };

    fn tell(&mut self, moment: u64) -> u64 {
        let rise = self.rise(moment);
        self.before = moment;
        self.told = self.told.saturating_add(rise);
        self.told
    }
}
