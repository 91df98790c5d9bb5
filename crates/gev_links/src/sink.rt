ghost use Rattle.std.specs.Prelude.{◌≡◌, ◌≤◌, ◌<◌, ℕ, List, length, take, Option, IfOk, OnErr};
ghost use Rattle.gev_links.specs.Faults.{Rose};
ghost use Rattle.gev_links.specs.Told.{Appends};

use crate::failed::Failed;

/// Where bytes go to.
pub trait Sink {
    /// The bytes that were written, where the sink tells.
    ghost written: { Self → Option (List ℕ) };

    /// How many calls failed. It rises in a call that fails and in no other, and stands still at the
    /// counter's end.
    ghost faults: { Self → ℕ };

    /// Writes bytes from the front of `bytes`, and answers how many: at least one, where there is one.
    /// To take none of them is a fault. A call that failed wrote none.
    fn write(&mut self, bytes: &[u8]) -> Result<usize, Failed>
        ensures count { IfOk result (λ n. n ≤ length bytes.now) }
        ensures some { IfOk result (λ n. 0 < length bytes.now → 0 < n) }
        ensures written { IfOk result (λ n. Appends (written self.old) (written self.new) (take n bytes.now)) }
        ensures no_fault { IfOk result (λ _. faults self.new ≡ faults self.old) }
        ensures failed { OnErr result (Rose (faults self.old) (faults self.new)) }
        ensures unwritten { OnErr result (written self.new ≡ written self.old) }
        ensures never_falls { faults self.old ≤ faults self.new };

    /// Takes lines for standard error. Nothing is promised of them: one that is lost is no fault.
    fn tell(&mut self, text: &[u8])
        ensures written { written self.new ≡ written self.old }
        ensures faults { faults self.new ≡ faults self.old };
}
