use crate::level::Level;

/// What is known of an open handle.
#[derive(Clone, Copy, PartialEq, Eq)]
pub(crate) struct Opened {
    /// The number of the opening.
    pub serial: u64,
    /// What it stands for.
    pub level: Level,
    /// The serial of the handle above, if there is one.
    pub parent: Option<u64>,
    /// Its number under the handle above.
    pub index: u32,
}
