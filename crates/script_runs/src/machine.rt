ghost use Rattle.std.specs.Prelude.{◌≡◌, ◌≤◌, ℕ, List, [], length, MatchResult};
ghost use Rattle.gev_script.specs.declared.kind.ScriptKind.{ScriptKind};
ghost use Rattle.script_runs.specs.declared.ran.Ran.{Ran};
ghost use Rattle.script_runs.specs.Runs.{IfRefused};

use crate::ran::Ran;
use crate::stop::Stop;
use std::alloc::Global;

/// What runs the lines of a script.
pub trait Machine {
    /// From one state the line with this number is run, goes on or ends the script, with this report,
    /// to another state.
    ghost runs: { Self → ℕ → List ℕ → Ran → List ℕ → Self → Type 0 };

    /// In this state the line with this number is refused for this cause.
    ghost refuses: { Self → ℕ → List ℕ → ScriptKind → Type 0 };

    /// Runs the line with this number, from 1, given without its line feed, and adds its report to the
    /// empty `out`.
    fn run_line(
        &mut self,
        alloc: Global,
        number: u32,
        line: &[u8],
        out: &mut Vec<u8>,
    ) -> Result<Ran, Stop>
        requires short { length line.now ≤ 20000 }
        requires empty { out.old.items ≡ [] }
        ensures { MatchResult result
            (λ ran. runs self.old number line.now ran out.new.items self.new)
            (λ stop. IfRefused stop (refuses self.old number line.now)) };
}
