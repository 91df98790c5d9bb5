//! A line behind the first.

ghost use Rattle.std.specs.Prelude.{◌≡◌, ◌≤◌, ◌+◌, ◌++◌, [], length, OnOk, IfOk, MatchResult};
ghost use Rattle.gev_script.specs.Lines.{view};
ghost use Rattle.script_runs.specs.Runs.{IfRefused};
ghost use Rattle.acq_core.specs.Receiver.{config_of};
ghost use Rattle.script_trace.specs.Trace.{Trace};
ghost use Rattle.script_trace.specs.Ending.{dropped_text, end_text};
ghost use Rattle.script_trace.specs.Wide.{Wide};
ghost use Rattle.script_trace.specs.Standing.{is_out_of_place};
ghost use Rattle.script_replay.specs.Replays.{StandsAt, IsReplaying, IsLaterIn, KeepsWide, RanAs, RanBy, RefusedBy};

use crate::datagram_rooms::{DatagramRooms, ROOM};
use crate::running::Running;
use crate::script::Script;
use crate::wide_lines::run_line;
use gev_report::{EndCounts, line_end, line_number};
use gev_script::{Line, Name, ScriptKind, first_name, parse_line};
use gev_types::NoMemory;
use script_runs::{Ran, Stop};
use std::alloc::Global;

/// Whether the word that a line begins with is of a header, or of the other script's lines.
pub fn is_out_of_place(name: Result<Name, ScriptKind>) -> bool
    ensures { result ≡ is_out_of_place name }
{
    match name {
        Ok(Name::Header) => true,
        Ok(Name::CameraHeader) => true,
        Ok(Name::Command) => true,
        Ok(Name::Frame) => true,
        _ => false,
    }
}

/// Adds how many buffers were dropped, where a line set the mode.
fn add_dropped(alloc: Global, running: &Running, out: &mut Vec<u8>) -> Result<(), NoMemory>
    ensures { OnOk result (out.new.items ≡ out.old.items ++ dropped_text running.now.told_mode running.now.counts.dropped) }
{
    if !running.told_mode {
        return Ok(());
    }
    line_number(alloc, "dropped", running.counts.dropped, out)
}

/// Adds the last lines of the report.
fn add_end(alloc: Global, script: &Script, out: &mut Vec<u8>) -> Result<(), NoMemory>
    requires empty { out.old.items ≡ [] }
    ensures { OnOk result ((w : Wide) (t : Trace) → StandsAt script.now.running t → KeepsWide script.now.widening w
        → out.new.items ≡ end_text (config_of script.now.running.acq) w.refused t) }
{
    let running = &script.running;
    let counts = running.acq.counts();
    let all = EndCounts {
        taken: running.taken,
        fills: running.counts.fills,
        complete: running.counts.complete,
        underrun: counts.underrun,
        requests: counts.requests,
        foreign: counts.foreign.saturating_add(script.widening.refused),
        late: counts.late,
        repeat: counts.repeat,
        misfit: counts.misfit,
        starved: counts.starved,
        notice: counts.notice,
        idle: running.idle,
    };
    add_dropped(alloc, running, out)?;
    line_end(alloc, &all, out)
}

/// Runs what a line behind the first says, and adds its report to the empty `out`. The line may be parsed by the caller,
/// who then knows what it says.
pub fn run_said(
    alloc: Global,
    script: &mut Script,
    rooms: &mut DatagramRooms,
    says: Line<'_>,
    out: &mut Vec<u8>,
) -> Result<Ran, NoMemory>
    requires keeps { IsReplaying script.old.running }
    requires run { IsLaterIn ROOM (view says) }
    requires empty { out.old.items ≡ [] }
    ensures ran { IfOk result (λ ran. RanAs ran (view says.entry) script.old out.new.items script.new) }
{
    match says {
        Line::End => {
            add_end(alloc, script, out)?;
            Ok(Ran::Ended)
        }
        other => {
            run_line(alloc, script, rooms, other, out)?;
            Ok(Ran::GoesOn)
        }
    }
}

/// Runs a line behind the first, given without its line feed, and adds its report to the empty `out`.
pub fn later_line(
    alloc: Global,
    script: &mut Script,
    rooms: &mut DatagramRooms,
    line: &[u8],
    out: &mut Vec<u8>,
) -> Result<Ran, Stop>
    requires keeps { IsReplaying script.old.running }
    requires short { length line.now ≤ 20000 }
    requires empty { out.old.items ≡ [] }
    ensures ran { MatchResult result (λ ran. RanBy ran line.now script.old out.new.items script.new)
        (λ stop. IfRefused stop (λ kind. RefusedBy line.now kind script.old script.new)) }
{
    if is_out_of_place(first_name(line)) {
        return Err(Stop::Refused(ScriptKind::Word));
    }
    match parse_line(line) {
        Err(kind) => Err(Stop::Refused(kind)),
        Ok(says) => match run_said(alloc, script, rooms, says, out) {
            Ok(ran) => Ok(ran),
            Err(NoMemory) => Err(Stop::NoMemory),
        },
    }
}
