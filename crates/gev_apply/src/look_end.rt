/// How a turn of the application ended.
#[derive(Clone, Copy)]
pub(crate) enum LookEnd {
    /// A buffer came, its line was added, and it was given back.
    Handed,
    /// No buffer came, and the run goes on.
    Idle,
    /// No buffer came, and the run is over.
    Over,
}
