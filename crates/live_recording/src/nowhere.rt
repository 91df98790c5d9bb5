ghost use Rattle.std.specs.Prelude.{None};

use gev_links::{Failed, Sink};
use std::alloc::Global;

/// A sink that takes all that is written and keeps none of it, and keeps what is told.
#[derive(Drop)]
pub(crate) struct Nowhere {
    told: Vec<u8>,
}

impl Nowhere {
    /// One that was told nothing.
    pub(crate) fn new(alloc: Global) -> Nowhere {
        Nowhere {
            told: Vec::new(alloc),
        }
    }

    /// What it was told. A text for which memory was wanting is left out.
    pub(crate) fn told(&self) -> &[u8] {
        self.told.as_slice()
    }
}

impl Sink for Nowhere {
    ghost written = { λ _. None };

    ghost faults = { λ _. 0 };

    fn write(&mut self, bytes: &[u8]) -> Result<usize, Failed> {
        Ok(bytes.len())
    }

    fn tell(&mut self, text: &[u8]) {
        let _ = self.told.extend_from_slice(text);
    }
}
