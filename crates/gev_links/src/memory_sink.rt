ghost use Rattle.std.specs.Prelude.{◌≡◌, [], Some};

use crate::failed::Failed;
use crate::sink::Sink;
use std::alloc::Global;
use std::marker::Model;

/// A sink in memory, some calls of which fail. Want of memory is a fault too.
#[derive(Drop)]
pub struct MemorySink<'a> {
    written: Vec<u8>,
    told: Vec<u8>,
    piece: usize,
    failing: &'a [u64],
    calls: u64,
    faults: u64,
}

impl<'a> Model for MemorySink<'a> {
    ghost use Rattle.gev_links.specs.SinkState.{SinkState};

    ghost Value = { SinkState };

    ghost view = { λ s. record { written = s.written.items; faults = s.faults } };
}

impl<'a> MemorySink<'a> {
    /// An empty sink, which takes at most `piece` bytes in a call; of 0 it takes none, which is a
    /// fault. The calls whose numbers are among `failing` fail; calls count from 1.
    pub fn new(alloc: Global, piece: usize, failing: &'a [u64]) -> MemorySink<'a>
        ensures written { result.written ≡ [] }
        ensures faults { result.faults ≡ 0 }
    {
        MemorySink {
            written: Vec::new(alloc),
            told: Vec::new(alloc),
            piece,
            failing,
            calls: 0,
            faults: 0,
        }
    }

    /// The bytes that were written.
    pub fn written(&self) -> &[u8]
        ensures { result.now ≡ self.now.written }
    {
        self.written.as_slice()
    }

    /// The lines for standard error that were taken, those aside for which there was no memory.
    pub fn told(&self) -> &[u8] {
        self.told.as_slice()
    }

    /// How many calls failed.
    pub fn faults(&self) -> u64
        ensures { result ≡ self.now.faults }
    {
        self.faults
    }
}

impl<'a> Sink for MemorySink<'a> {
    ghost written = { λ s. Some s.written };

    ghost faults = { λ s. s.faults };

    fn write(&mut self, bytes: &[u8]) -> Result<usize, Failed> {
        self.calls = self.calls.saturating_add(1);
        let count = self.piece.min(bytes.len());
        let takes_none = count == 0 && !bytes.is_empty();
        if takes_none || self.failing.contains(&self.calls) {
            self.faults = self.faults.saturating_add(1);
            return Err(Failed);
        }
        if self.written.extend_from_slice(&bytes[..count]).is_err() {
            self.faults = self.faults.saturating_add(1);
            return Err(Failed);
        }
        Ok(count)
    }

    fn tell(&mut self, text: &[u8]) {
        let _ = self.told.extend_from_slice(text);
    }
}
