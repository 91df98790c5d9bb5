use std::fmt;

/// Names one announced buffer of a stream. A later buffer at the same place has another generation.
#[derive(Clone, Copy, Debug, PartialEq, Eq)]
pub struct BufferId {
    /// The place, 0 to 14.
    pub place: u8,
    /// Which buffer of the place it is, counted from 1.
    pub generation: u32,
}

/// The place, a dot and the generation, as in a report.
impl fmt::Display for BufferId {
    fn fmt<W: fmt::Write>(&self, f: &mut fmt::Formatter<W>) -> fmt::Result {
        let place = self.place;
        let generation = self.generation;
        write!(f, "{place}.{generation}")
    }
}
