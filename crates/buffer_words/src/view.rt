use board_machine::Entry;
use std::collections::LinkedList;

/// What a pass is about: alone with its number, or between the two steps of a split or of a join.
#[derive(Drop)]
pub enum Stage {
    /// The pass has its number alone.
    Idle,
    /// The actor with this number was added, and its pass isn't made yet.
    Bearing(u64),
    /// The pass with this number, which had seen these entries, was taken in, and its actor isn't
    /// ended yet.
    Joining(u64, LinkedList<Entry>),
    /// The pass was taken in by another one.
    Spent,
}

/// What a pass knows. No value of this type is made when a program runs.
#[derive(Drop)]
pub struct View {
    /// The number of the pass's actor.
    pub number: u64,
    /// The history as far as the pass has seen it.
    pub seen: LinkedList<Entry>,
    /// What the pass is about.
    pub stage: Stage,
}
