use crate::gate::Gate;
use std::sync::Wait;
use std::sync::atomic::{AtomicU64, Ordering};
use std::time::Duration;

// The numbers of the low half of a word.
const HALF: u64 = 1 << 32;

/// A gate that each fill rings: whoever rests at it wakes as soon as a buffer was filled.
#[derive(Drop)]
pub struct FillBell {
    rings: AtomicU64,
}

impl FillBell {
    /// A gate that wasn't rung.
    pub fn new() -> FillBell {
        FillBell {
            rings: AtomicU64::new(0),
        }
    }
}

impl Gate for FillBell {
    fn pass(&self, point: u8) {
        if point == 3 {
            self.rings.fetch_add(1, Ordering::SeqCst);
            self.rings.wake_one();
        }
    }

    fn rings(&self) -> u64 {
        self.rings.load(Ordering::SeqCst)
    }

    fn rest<R: Wait>(&self, rt: &R, rings: u64, micros: u64) {
        // it sleeps only while the low half of the word is what was seen
        let seen = (rings % HALF) as u32;
        self.rings
            .park_timeout(rt, seen, Duration::from_micros(micros));
    }
}
