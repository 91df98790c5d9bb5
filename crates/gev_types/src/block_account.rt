ghost use Rattle.std.specs.Prelude.{◌≡◌, min, take};

use crate::reasons::Reasons;

/// Why a block retired.
#[derive(Clone, Copy, Debug, PartialEq, Eq)]
pub enum Cause {
    /// The whole image is in its buffer.
    Complete,
    /// No packet was kept of it for as long as the timeout says.
    Old,
    /// Another block needed its place in a full window.
    Displaced,
    /// The stream was stopped.
    Stopped,
}

/// The packet ids of a block, up to its last one, of which no packet was kept. A notice is no packet here.
#[derive(Clone, Copy, Debug, PartialEq, Eq)]
pub struct Lost {
    /// How many there are.
    pub ids: u32,
    /// How many ranges they make.
    pub ranges: u32,
    /// The first eight of these ranges, lowest first, each by its first id and its last; behind them (0, 0).
    pub first: [(u32, u32); 8],
}

impl Lost {
    /// The ranges that are named: all of them, or the first eight.
    pub fn first_ranges(&self) -> &[(u32, u32)]
        ensures { result.now ≡ take (min self.now.ranges 8) self.now.first }
    {
        let named = self.ranges.min(8) as usize;
        &self.first[..named]
    }
}

/// What became of a block that retired with a buffer, beside its image.
#[derive(Clone, Copy, Debug, PartialEq, Eq)]
pub struct BlockAccount {
    /// Why it retired.
    pub cause: Cause,
    /// Which packets are missing.
    pub lost: Lost,
    /// Why its image isn't whole.
    pub why: Reasons,
}
