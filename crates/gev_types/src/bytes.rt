ghost use Rattle.std.specs.Prelude.{◌≡◌};
ghost use Rattle.std.specs.Borrow.{sem};
ghost use Rattle.gev_types.specs.Lending.{LendsBytes};

use std::marker::Model;

/// Owned bytes, as the pixels of a frame. Contracts see the list of them.
#[derive(Drop)]
pub struct Bytes {
    items: Vec<u8>,
}

impl Model for Bytes {
    ghost use Rattle.std.specs.Prelude.{List, ℕ};

    ghost Value = { List ℕ };

    ghost view = { λ b. b.items.items };
}

impl Bytes {
    /// These bytes. Takes no memory.
    pub fn of(items: Vec<u8>) -> Bytes
        ensures { result ≡ items.items }
    {
        Bytes { items }
    }

    /// The bytes.
    pub fn as_slice(&self) -> &[u8]
        ensures { result.now ≡ self.now }
    {
        self.items.as_slice()
    }

    /// The bytes, to be changed in place. Their number stays.
    pub fn as_mut_slice(&mut self) -> &mut [u8]
        ensures* writes_back { sem 𝓛 (LendsBytes self.entry result) }
        ensures value { result.now ≡ self.old }
    {
        self.items.as_mut_slice()
    }
}
