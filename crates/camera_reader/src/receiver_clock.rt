//! The receiver's clock.

ghost use Rattle.std.specs.Prelude.{◌≡◌};
ghost use Rattle.camera_reader.specs.ReceiverClock.{begins_at, most_rise, rise_at, told_at, read_at};

// By how much the clock rises at most in a turn that gave a datagram, in milliseconds.
const MOST_WITH_DATAGRAM: u64 = 1;

// And in one that gave none: above the 4 ms that a receive waits, so that the clock keeps step with the host's.
const MOST_WITHOUT: u64 = 5;

/// The receiver's clock. In each turn it rises by what the host's clock rose since the turn before, but by at most 1 ms where
/// the turn gave a datagram of the camera, and by at most 5 ms where it gave none. So a pause of the program or the machine
/// isn't time in which a block gets old.
#[derive(Clone, Copy, Debug, PartialEq, Eq)]
pub struct ReceiverClock {
    /// The host's moment in the turn before, in milliseconds.
    pub before: u64,
    /// The moment that the receiver was told then.
    pub told: u64,
}

/// By how much the clock rises at most in a turn, by whether a datagram came, in milliseconds.
fn most_rise(came: bool) -> u64
    ensures { result ≡ most_rise came }
{
    if came {
        MOST_WITH_DATAGRAM
    } else {
        MOST_WITHOUT
    }
}

impl ReceiverClock {
    /// Before the first turn, where the receiver was told this moment of the host's clock.
    pub(crate) fn new(begin: u64) -> ReceiverClock
        ensures begins { result ≡ begins_at begin }
    {
        ReceiverClock {
            before: begin,
            told: begin,
        }
    }

    /// By how much it rises in a turn at this moment of the host's clock, in milliseconds.
    fn rise(self, moment: u64, came: bool) -> u64
        ensures { result ≡ rise_at self moment came }
    {
        moment.saturating_sub(self.before).min(most_rise(came))
    }

    /// The moment to tell in a turn at this moment of the host's clock, in which a datagram came, or none.
    pub(crate) fn tell(&mut self, moment: u64, came: bool) -> u64
        ensures told { result ≡ told_at self.old moment came }
        ensures read { self.new ≡ read_at self.old moment came }
    {
        let rise = self.rise(moment, came);
        self.before = moment;
        self.told = self.told.saturating_add(rise);
        self.told
    }
}
