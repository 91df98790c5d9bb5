//! A gate that holds workers until others are far enough.

use gev_links::Gate;
use std::sync::atomic::{AtomicBool, AtomicU64, Ordering};

/// A gate where each fill waits for as many takes as fills were before it, but for no more than `takes_wanted`, and the
/// first take waits for `fills_wanted` fills, the last of which waits for `last_wanted` takes. With 0 nobody waits.
#[derive(Drop)]
pub struct Pace {
    takes_wanted: u64,
    fills_wanted: u64,
    last_wanted: u64,
    fills: AtomicU64,
    takes: AtomicU64,
    is_missed: AtomicBool,
}

/// The most turns of a loop that a worker waits.
const TURNS: u32 = 1_000_000_000;

/// The number at this place, 0 where there is none.
fn number_at(numbers: &[u64], place: usize) -> u64 {
    numbers.get(place).copied().unwrap_or(0)
}

impl Pace {
    /// A gate that nobody passed.
    pub fn new(wanted: &[u64]) -> Pace {
        Pace {
            takes_wanted: number_at(wanted, 0),
            fills_wanted: number_at(wanted, 1),
            last_wanted: number_at(wanted, 2),
            fills: AtomicU64::new(0),
            takes: AtomicU64::new(0),
            is_missed: AtomicBool::new(false),
        }
    }

    /// Whether a worker waited in vain.
    pub fn is_missed(&self) -> bool {
        self.is_missed.load(Ordering::SeqCst)
    }

    fn wait_for(&self, count: &AtomicU64, least: u64) {
        for _ in 0..TURNS {
            if count.load(Ordering::SeqCst) >= least || self.is_missed() {
                return;
            }
            std::hint::spin_loop();
        }
        self.is_missed.store(true, Ordering::SeqCst);
    }

    fn pass_fill(&self) {
        let before = self.fills.fetch_add(1, Ordering::SeqCst);
        self.wait_for(&self.takes, before.min(self.takes_wanted));
        if before.wrapping_add(1) == self.fills_wanted {
            self.wait_for(&self.takes, self.last_wanted);
        }
    }

    fn pass_take(&self) {
        if self.takes.fetch_add(1, Ordering::SeqCst) == 0 {
            self.wait_for(&self.fills, self.fills_wanted);
        }
    }
}

impl Gate for Pace {
    fn pass(&self, point: u8) {
        match point {
            1 => self.pass_fill(),
            2 => self.pass_take(),
            _ => {}
        }
    }
}
