ghost use Rattle.std.specs.Prelude.{◌≡◌, ◌≢◌, ℕ, List};
ghost use Rattle.gev_script.specs.declared.kind.ScriptKind.{ScriptKind};
ghost use Rattle.script_runs.specs.declared.ran.Ran.{Ran};
ghost use Rattle.script_runs.specs.Outcomes.{RunEnds};
ghost use Rattle.script_runs.specs.Simulation.{Simulates, RefusesAlike};
ghost use Rattle.script_runs.specs.Verdicts.{Verdict, Judges, AnswersContent, IfTold, outcome};

use crate::ending::Ending;
use crate::machine::Machine;
use crate::running::run_script;
use gev_links::{Sink, Source};
use std::alloc::Global;

/// A machine whose states stand for plain ones, over which a line is run, ends the script or is refused
/// by its number and its bytes alone.
pub trait Modelled: Machine {
    /// The plain states.
    ghost Plain: { Type 0 };

    /// From one plain state the line with this number is run, as `runs` says of the machine's.
    ghost plain_runs: { Plain → ℕ → List ℕ → Ran → List ℕ → Plain → Type 0 };

    /// In this plain state the line with this number is refused for this cause.
    ghost plain_refuses: { Plain → ℕ → List ℕ → ScriptKind → Type 0 };

    /// The machine's state stands for this plain one.
    ghost stands_for: { Self → Plain → Type 0 };

    /// What the line with this number is to its script.
    ghost verdict: { ℕ → List ℕ → Verdict };

    /// It is a plain state behind so many lines.
    ghost behind: { Plain → ℕ → Type 0 };

    /// Each line that is run from plain states is judged so.
    ghost judges: { Judges plain_runs plain_refuses verdict behind };

    /// Each line that the machine runs is run from the plain state that it stands for.
    ghost simulates: { Simulates Self.runs plain_runs stands_for };

    /// Each line that the machine refuses is refused in the plain state that it stands for.
    ghost refuses_alike: { RefusesAlike Self.refuses plain_refuses stands_for };
}

/// Runs the script that the source gives, as `run_script` does, and says of it what holds of the plain
/// states. Where the source tells what it holds, its bytes decide whether the script is whole or which
/// line is the first that is refused.
pub fn run_modelled<S: Source, K: Sink, M: Modelled>(
    alloc: Global,
    source: &mut S,
    sink: &mut K,
    machine: &mut M,
) -> Ending
    ensures ends { (s : M.Plain) → M.stands_for machine.old s
        → RunEnds M.plain_runs M.plain_refuses s result
        (S.left source.old) (S.left source.new) (S.faults source.old) (S.faults source.new)
        (K.written sink.old) (K.written sink.new) (K.faults sink.old) (K.faults sink.new) }
    ensures exact { (s : M.Plain) → M.stands_for machine.old s → M.behind s 0
        → IfTold (S.left source.old) (λ content. AnswersContent result (outcome M.verdict content)) }
    ensures reads_steady { result ≢ Ending.ReadFault → S.faults source.new ≡ S.faults source.old }
    ensures writes_steady { result ≢ Ending.WriteFault → K.faults sink.new ≡ K.faults sink.old }
{
    run_script(alloc, source, sink, machine)
}
