/// What a line came to.
#[derive(Clone, Copy)]
pub(crate) enum Came {
    /// The next line is read.
    On,
    /// A `take` line took the buffer at this place.
    Took(u8),
    /// It was the last line.
    End,
}
