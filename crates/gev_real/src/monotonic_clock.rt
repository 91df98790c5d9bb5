ghost use Rattle.std.specs.Prelude.{None};

use gev_links::Clock;
use std::time::{Clock as Time, Instant};

/// The system's monotonic clock, in milliseconds since the first moment that it told. It tells nothing of
/// its moments. Where the system gives no moment it repeats the last one.
///
/// ```
/// let mut clock = MonotonicClock::new(&rt);
/// acq.tick(clock.now());
/// ```
#[derive(Drop)]
pub struct MonotonicClock<'a, T: Time> {
    time: &'a T,
    start: Option<Instant>,
    last: u64,
}

impl<'a, T: Time> MonotonicClock<'a, T> {
    /// A clock that has told no moment yet.
    pub fn new(time: &'a T) -> MonotonicClock<'a, T> {
        MonotonicClock {
            time,
            start: None,
            last: 0,
        }
    }
}

impl<'a, T: Time> Clock for MonotonicClock<'a, T> {
    ghost told = { λ _. None };

    fn now(&mut self) -> u64 {
        if let Ok(instant) = Instant::now(self.time) {
            let start = self.start.unwrap_or(instant);
            self.start = Some(start);
            self.last = u64::try_from(instant.duration_since(start).as_millis()).unwrap_or(
                u64::MAX,
            );
        }
        self.last
    }
}
