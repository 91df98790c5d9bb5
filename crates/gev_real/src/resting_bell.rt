use gev_links::{FillBell, Gate};
use std::sync::Wait;

/// How long a rest takes that nobody ends, in microseconds.
const REST: u64 = 20_000;

/// A gate that each fill rings, as `FillBell`: whoever rests at it wakes as soon as a buffer was filled. So a rest needn't be
/// short at first, and takes 20 milliseconds where nothing is filled: a wake-up costs as much as some datagrams.
///
/// ```
/// let gate = RestingBell::new();
/// let status = gevacq_top(&rt, rt.alloc(), words, &mut source, &mut sink, &mut ports, &gate, &mut kept);
/// ```
#[derive(Drop)]
pub struct RestingBell {
    bell: FillBell,
}

impl RestingBell {
    /// A gate that wasn't rung.
    pub fn new() -> RestingBell {
        RestingBell {
            bell: FillBell::new(),
        }
    }
}

impl Gate for RestingBell {
    fn pass(&self, point: u8) {
        self.bell.pass(point);
    }

    fn rings(&self) -> u64 {
        self.bell.rings()
    }

    fn rest<R: Wait>(&self, rt: &R, rings: u64, micros: u64) {
        self.bell.rest(rt, rings, micros.max(REST));
    }
}
