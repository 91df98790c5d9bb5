use idle_rests::rest_for;
use std::sync::Wait;

/// Where a worker passes certain points of its work. A test may hold it there; the work itself is the
/// same with every gate. A gate may also end the rest of a worker that waits for a buffer.
pub trait Gate {
    /// The worker is at this point: 1 is before a buffer is filled, 2 is after one was taken, and 3 is after one
    /// was filled.
    fn pass(&self, point: u8);

    /// How often the gate has been rung, of a gate that ends rests; 0 of another.
    fn rings(&self) -> u64 {
        0
    }

    /// The worker rests for at most so many microseconds, or until the gate is rung for another time than those that
    /// `rings` told before. The system may make it longer.
    fn rest<R: Wait>(&self, rt: &R, _rings: u64, micros: u64) {
        rest_for(rt, micros);
    }
}
