ghost use Rattle.std.specs.Prelude.{◌≡◌};

use crate::short_link::ShortLink;

/// A link that answers how many of its calls failed, as the ones in memory do.
pub trait CountsFaults: ShortLink {
    /// How many calls failed.
    fn fault_count(&self) -> u64
        ensures { result ≡ Self.faults self.now };
}
