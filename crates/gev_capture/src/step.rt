use crate::form::{Form, SectionInterface};
use crate::kind::CaptureKind;

/// Where a packet stands in its record.
#[derive(Clone, Copy, Debug, PartialEq, Eq)]
pub struct Slot {
    /// Its time in nanoseconds.
    pub time: u128,
    /// Its interface's link type.
    pub link: u16,
    /// Where its bytes begin in the record.
    pub at: usize,
    /// How many bytes were captured.
    pub count: usize,
}

/// What a record tells of packets.
#[derive(Clone, Copy, Debug, PartialEq, Eq)]
pub enum Entry {
    /// One was captured.
    Packet(Slot),
    /// The capturing program has dropped so many of an interface's.
    Dropped {
        /// As it told of the interface before, 0 where it hadn't.
        before: u64,
        /// As it tells now.
        now: u64,
    },
}

/// What becomes of the interfaces.
#[derive(Clone, Copy, Debug, PartialEq, Eq)]
pub enum Change {
    /// They stay.
    Same,
    /// A section begins, which has none yet.
    Cleared,
    /// There is one more.
    More(SectionInterface),
    /// Of the one at this place more is known.
    Now(usize, SectionInterface),
}

/// A record of a capture.
#[derive(Clone, Copy, Debug, PartialEq, Eq)]
pub struct Found {
    /// Its size in bytes.
    pub size: usize,
    /// The format behind it.
    pub form: Form,
    /// What becomes of the interfaces.
    pub change: Change,
    /// What it tells of packets, if anything.
    pub packet: Option<Entry>,
}

/// What the bytes of a capture that are left begin with.
#[derive(Clone, Copy, Debug, PartialEq, Eq)]
pub enum Step {
    /// Nothing yet: at least so many bytes are needed, more than there are.
    Wants(usize),
    /// A record that is refused.
    Refused(CaptureKind),
    /// A record.
    Record(Found),
}
