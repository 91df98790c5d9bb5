ghost use Rattle.std.specs.Prelude.{◌≡◌, ◌≤◌, ◌<◌, ℕ, List, length, take, Option, IfOk, OnErr};
ghost use Rattle.std.specs.Bool.{OnTrue, OnFalse};
ghost use Rattle.gev_links.specs.Faults.{Rose};
ghost use Rattle.gev_links.specs.Told.{Gives, IsSpent, Drops, IsShorter};

use crate::failed::Failed;

/// Where bytes come from.
pub trait Source {
    /// The bytes that are left, where the source tells.
    ghost left: { Self → Option (List ℕ) };

    /// How many calls failed. It rises in a call that fails and in no other, and stands still at the
    /// counter's end.
    ghost faults: { Self → ℕ };

    /// Puts bytes that are left into the front of `out`, and answers how many. 0 for an `out` that
    /// isn't empty means that none are left. A call that failed took none.
    fn read(&mut self, out: &mut [u8]) -> Result<usize, Failed>
        ensures count { IfOk result (λ n. n ≤ length out.old) }
        ensures given { IfOk result (λ n. Gives (left self.old) (left self.new) (take n out.new)) }
        ensures spent { IfOk result (λ n. n ≡ 0 → 0 < length out.old → IsSpent (left self.old)) }
        ensures no_fault { IfOk result (λ _. faults self.new ≡ faults self.old) }
        ensures failed { OnErr result (Rose (faults self.old) (faults self.new)) }
        ensures untaken { OnErr result (left self.new ≡ left self.old) }
        ensures never_falls { faults self.old ≤ faults self.new };

    /// Whether no bytes are left, without waiting for any. Bytes that are there are dropped, not all of
    /// them in one look.
    fn has_ended(&mut self) -> bool
        ensures ended { OnTrue result (IsSpent (left self.old)) }
        ensures going { OnFalse result (IsShorter (left self.old) (left self.new)) }
        ensures dropped { Drops (left self.old) (left self.new) }
        ensures faults { faults self.new ≡ faults self.old };
}
