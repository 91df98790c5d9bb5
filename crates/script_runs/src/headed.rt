ghost use Rattle.std.specs.Prelude.{◌≡◌, ◌≤◌, ℕ, List, [], length, Option, None, Some, IfOk, MatchResult};
ghost use Rattle.gev_script.specs.declared.kind.ScriptKind.{ScriptKind};
ghost use Rattle.script_runs.specs.Runs.{IfRefused};

use crate::stop::Stop;
use std::alloc::Global;

/// What runs a script whose first line, its header, makes what the further lines are run on.
pub trait Headed {
    /// What the header makes.
    type Script: Drop;

    /// What a line comes to.
    type Came;

    /// All is as it has to be between two lines. None while the header is still to come.
    ghost is_kept: { Self → Option Self.Script → Type 0 };

    /// The line with this number is run, comes to this and reports this.
    ghost runs: { Self → Option Self.Script → ℕ → List ℕ → Self.Came → List ℕ → Self → Option Self.Script → Type 0 };

    /// The line with this number is refused for this cause.
    ghost refuses: { Option Self.Script → ℕ → List ℕ → ScriptKind → Type 0 };

    /// Runs the header.
    fn begin(&self, alloc: Global, line: &[u8]) -> Result<(Self::Script, Self::Came), Stop>
        requires kept { is_kept self.now None }
        requires short { length line.now ≤ 20000 }
        ensures ran { (n : ℕ) → MatchResult result (λ begun. runs self.now None n line.now begun.1 [] self.now (Some begun.0))
            (λ stop. IfRefused stop (refuses None n line.now)) }
        ensures kept { IfOk result (λ begun. is_kept self.now (Some begun.0)) };

    /// Runs a further line, and adds its report to the empty `out`.
    fn go_on(
        &mut self,
        alloc: Global,
        script: &mut Self::Script,
        number: u32,
        line: &[u8],
        out: &mut Vec<u8>,
    ) -> Result<Self::Came, Stop>
        requires kept { is_kept self.old (Some script.old) }
        requires short { length line.now ≤ 20000 }
        requires empty { out.old.items ≡ [] }
        ensures ran { MatchResult result (λ came. runs self.old (Some script.old) number line.now came out.new.items self.new (Some script.new))
            (λ stop. IfRefused stop (refuses (Some script.old) number line.now)) }
        ensures kept { MatchResult result (λ came. is_kept self.new (Some script.new)) (λ stop. IfRefused stop (λ kind. is_kept self.new (Some script.new))) }
        ensures bare { is_kept self.new None };
}

/// Runs the header, or a further line. Where memory runs out, nothing stands any more.
pub fn run_headed<H: Headed>(
    alloc: Global,
    headed: &mut H,
    script: &mut Option<H::Script>,
    number: u32,
    line: &[u8],
    out: &mut Vec<u8>,
) -> Result<H::Came, Stop>
    requires kept { H.is_kept headed.old script.old }
    requires short { length line.now ≤ 20000 }
    requires empty { out.old.items ≡ [] }
    ensures ran { MatchResult result (λ came. H.runs headed.old script.old number line.now came out.new.items headed.new script.new)
        (λ stop. IfRefused stop (H.refuses script.old number line.now)) }
    ensures kept { H.is_kept headed.new script.new }
{
    match script {
        Some(now) => match headed.go_on(alloc, now, number, line, out) {
            Ok(came) => Ok(came),
            Err(Stop::Refused(kind)) => Err(Stop::Refused(kind)),
            Err(Stop::NoMemory) => {
                *script = None;
                Err(Stop::NoMemory)
            }
        },
        None => {
            let (begun, came) = headed.begin(alloc, line)?;
            *script = Some(begun);
            Ok(came)
        }
    }
}
