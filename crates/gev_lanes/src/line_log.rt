use std::collections::LinkedList;

/// What a pass of a queue may do, what it has given and taken, and how many tries of it failed. No value of it is made when a program runs.
pub(crate) struct Log<T> {
    /// Whether the pass may give.
    pub gives: bool,
    /// Whether the pass may take.
    pub takes: bool,
    /// How many items had been given at least when the pass began to take alone.
    pub least: u64,
    /// What the pass has given, in order.
    pub given: LinkedList<T>,
    /// What the pass has taken, in order.
    pub taken: LinkedList<T>,
    /// How many tries to give found the queue full.
    pub refusals: u64,
    /// How many tries to take found the queue empty.
    pub misses: u64,
}
