/// What a line that was run does to its script.
#[derive(Clone, Copy, Debug, PartialEq, Eq)]
pub enum Ran {
    /// The next line is read.
    GoesOn,
    /// It was the last line.
    Ended,
}
