ghost use Rattle.std.specs.Prelude.{◌≡◌, Some, option_map};
ghost use Rattle.gev_links.specs.Moments.{last_moment, moment_at, told_by};

use crate::clock::Clock;
use crate::counting::one_more;
use std::marker::Model;

/// A clock in memory, which tells the moments of a list, then the last of them again and again. With an
/// empty list it always tells 0.
#[derive(Drop)]
pub struct MemoryClock<'a> {
    moments: &'a [u64],
    // how many moments were told; None: more than are counted
    count: Option<u64>,
}

impl<'a> Model for MemoryClock<'a> {
    ghost use Rattle.gev_links.specs.Moments.{ClockState};

    ghost Value = { ClockState };

    ghost view = { λ c. record { moments = c.moments.now; count = c.count } };
}

impl<'a> MemoryClock<'a> {
    /// A clock with these moments that has told none of them.
    pub fn new(moments: &'a [u64]) -> MemoryClock<'a>
        ensures moments { result.moments ≡ moments.now }
        ensures count { result.count ≡ Some 0 }
    {
        MemoryClock {
            moments,
            count: Some(0),
        }
    }
}

/// The last moment, and 0 where there is none.
fn last_moment(moments: &[u64]) -> u64
    ensures { result ≡ last_moment moments.now }
{
    if moments.is_empty() {
        return 0;
    }
    moments[moments.len() - 1]
}

/// The moment that is told after so many others.
fn moment_at(moments: &[u64], count: u64) -> u64
    ensures { result ≡ moment_at moments.now count }
{
    let place = count as usize;
    if place < moments.len() {
        moments[place]
    } else {
        last_moment(moments)
    }
}

impl<'a> Clock for MemoryClock<'a> {
    ghost told = { λ c. option_map (told_by c.moments) c.count };

    fn now(&mut self) -> u64 {
        match self.count {
            Some(count) => {
                self.count = one_more(count);
                moment_at(self.moments, count)
            }
            None => last_moment(self.moments),
        }
    }
}
