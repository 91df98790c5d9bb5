/// Names an opened module or event. The default handle is never open.
#[derive(Clone, Copy, Debug, Default, PartialEq, Eq)]
pub struct Handle {
    /// The number of the opening, counted from 1. No other opening of the tree has it.
    pub serial: u64,
    /// Where the tree keeps it, while it's open.
    pub(crate) key: usize,
}
