use std::thread;
use std::thread::Threads;

/// Whether the system gives a thread now: one is made that does nothing, and its end is waited for.
pub(crate) fn has_thread<R: Threads>(rt: &R) -> bool {
    match thread::spawn(rt, || {}) {
        Ok(begun) => {
            begun.join(rt);
            true
        }
        Err(_) => false,
    }
}
