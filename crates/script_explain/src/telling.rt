//! A line behind the first, with what is told of it.

ghost use Rattle.std.specs.Prelude.{◌≡◌, ◌≤◌, [], true, length, Ok, None, OnOk, MatchResult};
ghost use Rattle.gev_script.specs.Lines.{view};
ghost use Rattle.gev_script.specs.Grammar.{line_of};
ghost use Rattle.script_runs.specs.Runs.{IfRefused};
ghost use Rattle.script_trace.specs.Standing.{later_kind};
ghost use Rattle.script_replay.specs.Replays.{IsReplaying, IsLaterIn, RefusedBy};
ghost use Rattle.explain_lines.specs.Telling.{TellsLine};
ghost use Rattle.script_explain.specs.Explains.{is_fed, ToldLine, ToldBy};

use crate::rooms::Rooms;
use explain_lines::{datagram, stop, tick};
use gev_script::{Line, ScriptKind, first_name, parse_line};
use gev_types::NoMemory;
use note_tape::Told;
use script_replay::{DatagramRooms, ROOM, Script, is_out_of_place, later_line, note_start};
use script_runs::{Ran, Stop};
use std::alloc::Global;

/// Whether a line tells the acquisition.
fn is_fed(line: Line<'_>) -> bool
    ensures { result ≡ is_fed (view line.entry) }
{
    match line {
        Line::Datagram { .. } => true,
        Line::Tick { .. } => true,
        Line::Stop { .. } => true,
        _ => false,
    }
}

/// Tells the acquisition a line, adds its report to the empty `out`, and what is told of it to the empty tape.
fn feed(
    alloc: Global,
    script: &mut Script,
    rooms: &mut DatagramRooms,
    line: Line<'_>,
    tape: &mut Vec<Told>,
    out: &mut Vec<u8>,
) -> Result<(), NoMemory>
    requires keeps { IsReplaying script.old.running }
    requires fed { is_fed (view line) ≡ true }
    requires run { IsLaterIn ROOM (view line) }
    requires blank { tape.old.items ≡ [] }
    requires empty { out.old.items ≡ [] }
    ensures { OnOk result (TellsLine (view line.entry) script.old out.new.items tape.new.items script.new) }
{
    match line {
        Line::Datagram { hex } => datagram(
            script,
            hex,
            rooms.room.as_mut_slice(),
            rooms.wide_room.as_mut_slice(),
            tape,
        ),
        Line::Tick { moment } => tick(alloc, script, moment, tape, out),
        Line::Stop { flags } => stop(alloc, script, flags, tape, out),
        _ => unreachable!(),
    }
}

/// Runs a line that tells the acquisition, and leaves the script as it stands behind a line.
fn run_fed(
    alloc: Global,
    script: &mut Script,
    rooms: &mut DatagramRooms,
    line: Line<'_>,
    tape: &mut Vec<Told>,
    out: &mut Vec<u8>,
) -> Result<(), NoMemory>
    requires keeps { IsReplaying script.old.running }
    requires fed { is_fed (view line) ≡ true }
    requires run { IsLaterIn ROOM (view line) }
    requires blank { tape.old.items ≡ [] }
    requires empty { out.old.items ≡ [] }
    ensures { OnOk result (ToldLine (view line.entry) script.old out.new.items tape.new.items script.new) }
{
    let before = script.running.board.run();
    feed(alloc, script, rooms, line, tape, out)?;
    let after = script.running.board.run();
    note_start(&mut script.widening, before, after);
    Ok(())
}

/// Runs the line that these bytes say.
fn run_said(
    alloc: Global,
    script: &mut Script,
    rooms: &mut Rooms,
    line: &[u8],
    says: Line<'_>,
) -> Result<Ran, Stop>
    requires keeps { IsReplaying script.old.running }
    requires short { length line.now ≤ 20000 }
    requires in_place { later_kind line.now ≡ None }
    requires read { line_of line.now ≡ Ok (view says) }
    requires run { IsLaterIn ROOM (view says) }
    requires blank { rooms.old.tape.items ≡ [] }
    requires empty { rooms.old.report.items ≡ [] }
    ensures { MatchResult result (λ ran. ToldBy ran line.now script.old rooms.new.report.items rooms.new.tape.items script.new)
        (λ stop. IfRefused stop (λ kind. RefusedBy line.now kind script.old script.new)) }
{
    if !is_fed(says) {
        return later_line(alloc, script, &mut rooms.datagram, line, &mut rooms.report);
    }
    match run_fed(
        alloc,
        script,
        &mut rooms.datagram,
        says,
        &mut rooms.tape,
        &mut rooms.report,
    ) {
        Ok(()) => Ok(Ran::GoesOn),
        Err(NoMemory) => Err(Stop::NoMemory),
    }
}

/// Runs a line behind the first as a replay does, given without its line feed. Its report and what is told of it
/// stand in the rooms afterwards.
pub(crate) fn run_later(
    alloc: Global,
    script: &mut Script,
    rooms: &mut Rooms,
    line: &[u8],
) -> Result<Ran, Stop>
    requires keeps { IsReplaying script.old.running }
    requires short { length line.now ≤ 20000 }
    ensures { MatchResult result (λ ran. ToldBy ran line.now script.old rooms.new.report.items rooms.new.tape.items script.new)
        (λ stop. IfRefused stop (λ kind. RefusedBy line.now kind script.old script.new)) }
{
    rooms.tape.clear();
    rooms.report.clear();
    if is_out_of_place(first_name(line)) {
        return Err(Stop::Refused(ScriptKind::Word));
    }
    match parse_line(line) {
        Err(kind) => Err(Stop::Refused(kind)),
        Ok(says) => run_said(alloc, script, rooms, line, says),
    }
}
