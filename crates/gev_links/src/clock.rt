ghost use Rattle.std.specs.Prelude.{ℕ, List, Option};
ghost use Rattle.gev_links.specs.Moments.{Tells};

/// Where moments come from, in milliseconds from some beginning. A moment may be lower than the one
/// before it. Reading a clock has no fault.
pub trait Clock {
    /// The moments that were told, in order, where the clock tells them.
    ghost told: { Self → Option (List ℕ) };

    /// The moment.
    fn now(&mut self) -> u64
        ensures told { Tells (told self.old) (told self.new) result };
}
