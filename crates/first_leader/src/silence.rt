//! When nothing came for long enough.

ghost use Rattle.std.specs.Prelude.{◌≡◌};
ghost use Rattle.first_leader.specs.Waiting.{jumps, is_over, next_pace};

/// How a wait stands between two turns.
#[derive(Clone, Copy, Debug, PartialEq, Eq)]
pub struct Pace {
    /// The moment of the turn before, or of the begin, in milliseconds.
    pub last: u64,
    /// Whether that turn ended nothing because its moment came so late, so that the next one decides.
    pub spared: bool,
}

/// Whether the moment comes later behind the one before it than is waited.
fn jumps(silence: u64, pace: Pace, moment: u64) -> bool
    ensures { result ≡ jumps silence pace moment }
{
    u128::from(pace.last) + u128::from(silence) < u128::from(moment)
}

/// Whether the wait is over: the time is spent, and no pause of the program spent it.
pub fn is_over(silence: u64, begin: u64, pace: Pace, moment: u64) -> bool
    ensures { result ≡ is_over silence begin pace moment }
{
    u128::from(begin) + u128::from(silence) <= u128::from(moment)
        && (!jumps(silence, pace, moment) || pace.spared)
}

/// How the wait stands behind the moment's turn.
pub fn next_pace(silence: u64, pace: Pace, moment: u64) -> Pace
    ensures { result ≡ next_pace silence pace moment }
{
    Pace {
        last: moment,
        spared: jumps(silence, pace, moment) && !pace.spared,
    }
}
