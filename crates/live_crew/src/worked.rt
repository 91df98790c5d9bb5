use buffer_words::Pass;

/// What a worker gives back: its pass, with nothing in its hands, and what it has.
pub struct Worked<D> {
    /// The pass that it was given.
    pub pass: Pass,
    /// What it made, and what it worked with.
    pub done: D,
}
