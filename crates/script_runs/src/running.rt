ghost use Rattle.std.specs.Prelude.{◌≡◌, ◌≢◌, ◌≤◌, length, [], None, Some};
ghost use Rattle.script_runs.specs.Turns.{Turn, ending_of};
ghost use Rattle.script_runs.specs.Outcomes.{RunEnds};

use crate::ending::Ending;
use crate::machine::Machine;
use crate::ran::Ran;
use crate::stop::Stop;
use gev_links::{Sink, Source, write_all};
use gev_script::{LineEnd, Lines, ScriptKind};
use gev_types::NoMemory;
use std::alloc::Global;

/// The ending of a script whose next line can't be read, after `given` others.
fn ending_of(given: u32, end: LineEnd) -> Ending
    ensures { result ≡ ending_of given end }
{
    let line = u64::from(given) + 1;
    match end {
        LineEnd::Long => Ending::BadLine {
            line,
            kind: ScriptKind::Long,
        },
        LineEnd::NoEnd => Ending::BadLine {
            line,
            kind: ScriptKind::NoEnd,
        },
        LineEnd::Many => Ending::BadLine {
            line,
            kind: ScriptKind::Many,
        },
        LineEnd::ReadFault => Ending::ReadFault,
    }
}

/// Takes one line, runs it and writes its report, and answers the ending, if the script doesn't go on.
fn run_next<S: Source, K: Sink, M: Machine>(
    alloc: Global,
    source: &mut S,
    sink: &mut K,
    machine: &mut M,
    lines: &mut Lines,
    report: &mut Vec<u8>,
) -> Option<Ending>
    requires { lines.old.refusal ≡ None }
    ensures turn { Turn M.runs M.refuses result machine.old machine.new lines.old lines.new
        (S.left source.old) (S.left source.new) (S.faults source.old) (S.faults source.new)
        (K.written sink.old) (K.written sink.new) (K.faults sink.old) (K.faults sink.new) }
    ensures reads_steady { result ≢ Some Ending.ReadFault → S.faults source.new ≡ S.faults source.old }
    ensures writes_steady { result ≢ Some Ending.WriteFault → K.faults sink.new ≡ K.faults sink.old }
{
    let number = match lines.next(source) {
        Ok(number) => number,
        Err(end) => return Some(ending_of(lines.given(), end)),
    };
    report.clear();
    let ran = match machine.run_line(alloc, number, lines.line(), report) {
        Ok(ran) => ran,
        Err(Stop::Refused(kind)) => {
            return Some(Ending::BadLine {
                line: u64::from(number),
                kind,
            });
        }
        Err(Stop::NoMemory) => return Some(Ending::NoMemory),
    };
    if write_all(sink, report.as_slice()).is_err() {
        return Some(Ending::WriteFault);
    }
    match ran {
        Ran::GoesOn => None,
        Ran::Ended => Some(Ending::Done),
    }
}

/// Runs the lines that are left, up to an ending.
fn run_lines<S: Source, K: Sink, M: Machine>(
    alloc: Global,
    source: &mut S,
    sink: &mut K,
    machine: &mut M,
    lines: &mut Lines,
    report: &mut Vec<u8>,
) -> Ending
    requires refusal { lines.old.refusal ≡ None }
    requires given { lines.old.given ≡ 0 }
    requires held { lines.old.held ≡ [] }
    ensures ends { RunEnds M.runs M.refuses machine.old result
        (S.left source.old) (S.left source.new) (S.faults source.old) (S.faults source.new)
        (K.written sink.old) (K.written sink.new) (K.faults sink.old) (K.faults sink.new) }
    ensures reads_steady { result ≢ Ending.ReadFault → S.faults source.new ≡ S.faults source.old }
    ensures writes_steady { result ≢ Ending.WriteFault → K.faults sink.new ≡ K.faults sink.old }
{
    'turns: loop {
        match run_next(alloc, source, sink, machine, lines, report) {
            Some(ending) => return ending,
            None => continue 'turns,
        }
    }
}

/// Runs the script that the source gives. Each line is run as it's read, and its report is written
/// before the next line is read; the source is read only where no whole line is held.
#[tactic(auto, using(crate::proofs::Looping::run_none))]
pub fn run_script<S: Source, K: Sink, M: Machine>(
    alloc: Global,
    source: &mut S,
    sink: &mut K,
    machine: &mut M,
) -> Ending
    ensures ends { RunEnds M.runs M.refuses machine.old result
        (S.left source.old) (S.left source.new) (S.faults source.old) (S.faults source.new)
        (K.written sink.old) (K.written sink.new) (K.faults sink.old) (K.faults sink.new) }
    ensures reads_steady { result ≢ Ending.ReadFault → S.faults source.new ≡ S.faults source.old }
    ensures writes_steady { result ≢ Ending.WriteFault → K.faults sink.new ≡ K.faults sink.old }
{
    match Lines::new(alloc) {
        Ok(mut lines) => {
            let mut report = Vec::new(alloc);
            run_lines(alloc, source, sink, machine, &mut lines, &mut report)
        }
        Err(NoMemory) => Ending::NoMemory,
    }
}
