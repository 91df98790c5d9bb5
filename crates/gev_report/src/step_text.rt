/// What one step of the board was answered.
#[derive(Clone, Copy, Debug, PartialEq, Eq)]
pub enum StepText {
    /// The step was done.
    Done,
    /// A place, or a number of places.
    Number(u32),
    /// There was no place to claim or to take.
    None,
    /// The stream is closed.
    Closed,
    /// The place isn't in the actor's hands.
    NotHeld,
    /// No buffer is announced at the place.
    Vacant,
    /// The application doesn't own the place's buffer.
    Away,
}
