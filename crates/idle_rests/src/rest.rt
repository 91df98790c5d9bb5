ghost use Rattle.std.specs.Prelude.{◌≤◌};

use std::sync::Wait;
use std::sync::atomic::AtomicU64;
use std::time::Duration;

/// How many looks for something to do come before the first rest.
const LOOKS: u32 = 20;

/// How many short rests come before the first long one.
const SHORT_RESTS: u32 = 20;

/// How long a short rest is, in microseconds.
pub const SHORT: u64 = 100;

/// How long a long rest is, in microseconds.
const LONG: u64 = 1000;

/// How long a long rest is of a thread that is woken, in microseconds.
const WOKEN_LONG: u64 = 20_000;

/// Rests for so many microseconds. The system may make it longer.
pub fn rest_for<R: Wait>(rt: &R, micros: u64) {
    // nobody wakes who sleeps on it
    let word = AtomicU64::new(0);
    word.park_timeout(rt, 0, Duration::from_micros(micros));
}

/// How a thread rests between its looks for something to do: not at all at first, then for a tenth of a millisecond,
/// and for longer where nothing comes for long.
#[derive(Clone, Copy)]
pub struct Rest {
    idle: u32,
    woken: bool,
}

impl Rest {
    /// Of a thread that has just had something to do, and that nobody wakes: its long rests take a millisecond.
    pub const fn new() -> Rest {
        Rest {
            idle: 0,
            woken: false,
        }
    }

    /// Of a thread that has just had something to do, and that is woken where there is more: its long rests take 20
    /// milliseconds.
    pub const fn woken() -> Rest {
        Rest {
            idle: 0,
            woken: true,
        }
    }

    /// The thread has found something to do: the rests begin anew.
    pub fn found(&mut self) {
        self.idle = 0;
    }

    /// The thread has found nothing to do: how long it's to rest, in microseconds; 0 where it isn't.
    pub fn micros(&mut self) -> u64
        ensures { result ≤ 20000 }
    {
        if self.idle >= LOOKS + SHORT_RESTS {
            return if self.woken { WOKEN_LONG } else { LONG };
        }
        self.idle += 1;
        if self.idle > LOOKS { SHORT } else { 0 }
    }

    /// The thread has found nothing to do, and rests.
    pub fn rest<R: Wait>(&mut self, rt: &R) {
        let micros = self.micros();
        if micros > 0 {
            rest_for(rt, micros);
        }
    }
}
