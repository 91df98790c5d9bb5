//! Threads share a queue, and its ends go from one to another.
use crate::line::Line;
use crate::line_ends::{Giver, Start, Taker};

fn is_shared<T: Sync>(_value: &T) {}

fn crosses<T: Send>(_value: &T) {}

/// Does nothing: threads may share a queue.
pub fn line_is_shared<T: Drop + Send>(line: &Line<T>) {
    is_shared(line);
}

/// Does nothing: the ends of a queue may go to another thread.
pub fn ends_cross<T: Drop + Send>(start: &Start<T>, giver: &Giver<T>, taker: &Taker<T>) {
    crosses(start);
    crosses(giver);
    crosses(taker);
}
