ghost use Rattle.std.specs.Prelude.{◌≡◌, Some};

use crate::failed::Failed;
use crate::source::Source;
use std::marker::Model;

/// A source in memory that never fails.
#[derive(Drop)]
pub struct SteadySource<'a> {
    left: &'a [u8],
    piece: usize,
}

impl<'a> Model for SteadySource<'a> {
    ghost use Rattle.std.specs.Prelude.{List, ℕ};

    ghost Value = { List ℕ };

    ghost view = { λ s. s.left.now };
}

impl<'a> SteadySource<'a> {
    /// A source of these bytes, which gives at most `piece` of them in a call, and at least one.
    pub fn new(contents: &'a [u8], piece: usize) -> SteadySource<'a>
        ensures { result ≡ contents.now }
    {
        SteadySource {
            left: contents,
            piece,
        }
    }
}

impl<'a> Source for SteadySource<'a> {
    ghost left = { λ s. Some s };

    ghost faults = { λ _. 0 };

    fn read(&mut self, out: &mut [u8]) -> Result<usize, Failed> {
        let count = self.piece.max(1).min(out.len()).min(self.left.len());
        let (given, rest) = self.left.split_at(count);
        out[..count].copy_from_slice(given);
        self.left = rest;
        Ok(count)
    }

    fn has_ended(&mut self) -> bool {
        let count = self.piece.max(1).min(self.left.len());
        let (_, rest) = self.left.split_at(count);
        self.left = rest;
        count == 0
    }
}
