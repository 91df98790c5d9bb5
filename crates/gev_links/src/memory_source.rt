ghost use Rattle.std.specs.Prelude.{◌≡◌, Some};

use crate::failed::Failed;
use crate::source::Source;
use std::marker::Model;

/// A source in memory, some calls of which fail.
#[derive(Drop)]
pub struct MemorySource<'a> {
    left: &'a [u8],
    piece: usize,
    failing: &'a [u64],
    calls: u64,
    faults: u64,
}

impl<'a> Model for MemorySource<'a> {
    ghost use Rattle.gev_links.specs.SourceState.{SourceState};

    ghost Value = { SourceState };

    ghost view = { λ s. record { left = s.left.now; faults = s.faults } };
}

impl<'a> MemorySource<'a> {
    /// A source of these bytes, which gives at most `piece` of them in a call, and at least one. The
    /// calls whose numbers are among `failing` fail; calls count from 1.
    pub fn new(contents: &'a [u8], piece: usize, failing: &'a [u64]) -> MemorySource<'a>
        ensures left { result.left ≡ contents.now }
        ensures faults { result.faults ≡ 0 }
    {
        MemorySource {
            left: contents,
            piece,
            failing,
            calls: 0,
            faults: 0,
        }
    }

    /// How many calls failed.
    pub fn faults(&self) -> u64
        ensures { result ≡ self.now.faults }
    {
        self.faults
    }
}

impl<'a> Source for MemorySource<'a> {
    ghost left = { λ s. Some s.left };

    ghost faults = { λ s. s.faults };

    fn read(&mut self, out: &mut [u8]) -> Result<usize, Failed> {
        self.calls = self.calls.saturating_add(1);
        if self.failing.contains(&self.calls) {
            self.faults = self.faults.saturating_add(1);
            return Err(Failed);
        }
        let count = self.piece.max(1).min(out.len()).min(self.left.len());
        let (given, rest) = self.left.split_at(count);
        out[..count].copy_from_slice(given);
        self.left = rest;
        Ok(count)
    }

    fn has_ended(&mut self) -> bool {
        let count = self.piece.max(1).min(self.left.len());
        let (_, rest) = self.left.split_at(count);
        self.left = rest;
        count == 0
    }
}
