/// Which of the buffers that a script's `take` lines get are drawn.
#[derive(Clone, Copy, Debug, PartialEq, Eq)]
pub enum Wanted {
    /// The one with this number, from 1.
    One(u32),
    /// Each that has a picture.
    All,
}
