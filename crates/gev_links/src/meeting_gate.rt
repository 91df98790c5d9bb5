use crate::gate::Gate;
use std::sync::atomic::{AtomicBool, AtomicU64, Ordering};

/// A gate where a worker that fills and one that takes meet: whoever passes point 1, before a fill, for the
/// second time waits for the one that passes point 2, after a take, for the first time, and the other way
/// round. So workers that run one after another never meet.
#[derive(Drop)]
pub struct MeetingGate {
    turns: u32,
    fills: AtomicU64,
    takes: AtomicU64,
    fill_is_there: AtomicBool,
    take_is_there: AtomicBool,
    is_missed: AtomicBool,
}

impl MeetingGate {
    /// A gate that nobody passed. Each wait at it goes on for at most so many turns of a loop.
    pub fn new(turns: u32) -> MeetingGate {
        MeetingGate {
            turns,
            fills: AtomicU64::new(0),
            takes: AtomicU64::new(0),
            fill_is_there: AtomicBool::new(false),
            take_is_there: AtomicBool::new(false),
            is_missed: AtomicBool::new(false),
        }
    }

    /// How often point 1, before a fill, was passed.
    pub fn fills(&self) -> u64 {
        self.fills.load(Ordering::SeqCst)
    }

    /// How often point 2, after a take, was passed.
    pub fn takes(&self) -> u64 {
        self.takes.load(Ordering::SeqCst)
    }

    /// Whether both were there, and none had waited in vain.
    pub fn have_met(&self) -> bool {
        self.fill_is_there.load(Ordering::SeqCst)
            && self.take_is_there.load(Ordering::SeqCst)
            && !self.is_missed.load(Ordering::SeqCst)
    }

    fn wait_for(&self, other: &AtomicBool) {
        for _ in 0..self.turns {
            if other.load(Ordering::SeqCst) {
                return;
            }
            std::hint::spin_loop();
        }
        self.is_missed.store(true, Ordering::SeqCst);
    }

    fn pass_fill(&self) {
        if self.fills.fetch_add(1, Ordering::SeqCst) == 1 {
            self.fill_is_there.store(true, Ordering::SeqCst);
            self.wait_for(&self.take_is_there);
        }
    }

    fn pass_take(&self) {
        if self.takes.fetch_add(1, Ordering::SeqCst) == 0 {
            self.take_is_there.store(true, Ordering::SeqCst);
            self.wait_for(&self.fill_is_there);
        }
    }
}

impl Gate for MeetingGate {
    fn pass(&self, point: u8) {
        match point {
            1 => self.pass_fill(),
            2 => self.pass_take(),
            _ => {}
        }
    }
}
