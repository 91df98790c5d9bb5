//! The lines behind the header.

ghost use Rattle.std.specs.Prelude.{◌≡◌, ◌≤◌, [], length, IfOk, IfErr};
ghost use Rattle.gev_script.specs.Lines as line;
ghost use Rattle.gev_script.specs.Lines.{view};
ghost use Rattle.gev_script.specs.Grammar.{first_name as name_first};
ghost use Rattle.gev_script.specs.Spelling.{IsScriptLine};
ghost use Rattle.camera_replay.specs.Standing.{is_in_place, later_kind, IsCameraLine};
ghost use Rattle.camera_replay.specs.Running.{IsAtRest, RanAs};
ghost use Rattle.camera_replay.specs.Lines.{Reads};

use crate::lines::{command, frame, tick};
use crate::rooms::Rooms;
use crate::running::Running;
use gev_report::line_executed;
use gev_script::{Line, Name, ScriptKind, first_name, parse_line};
use gev_types::NoMemory;
use script_runs::Ran;
use std::alloc::Global;

/// Whether a line with this first word may stand behind the header.
fn may_follow(name: Name) -> bool
    ensures { result ≡ is_in_place (Ok name) }
{
    match name {
        Name::Tick => true,
        Name::Command => true,
        Name::Frame => true,
        Name::End => true,
        _ => false,
    }
}

/// Whether the line's first word is one of a camera script's lines behind the header.
fn is_of_camera(line: &[u8]) -> bool
    ensures { result ≡ is_in_place (name_first line.now) }
{
    match first_name(line) {
        Ok(name) => may_follow(name),
        Err(_kind) => false,
    }
}

/// What a line behind the header says, or the kind for which it's refused.
pub(crate) fn read(line: &[u8]) -> Result<Line<'_>, ScriptKind>
    requires { length line.now ≤ 20000 }
    ensures says { IfOk result (λ l. Reads line.now (view l)) }
    ensures refused { IfErr result (λ kind. later_kind line.now ≡ Some kind) }
{
    if !is_of_camera(line) {
        return Err(ScriptKind::Word);
    }
    parse_line(line)
}

/// Runs what a line says, and adds its report to the empty `out`.
pub(crate) fn run_said(
    alloc: Global,
    running: &mut Running,
    rooms: &mut Rooms,
    says: Line<'_>,
    out: &mut Vec<u8>,
) -> Result<Ran, NoMemory>
    requires rests { IsAtRest running.old }
    requires is_line { IsScriptLine (view says) }
    requires own { IsCameraLine (view says) }
    requires empty { out.old.items ≡ [] }
    ensures { IfOk result (λ ran. RanAs ran (view says.entry) running.old out.new.items running.new) }
{
    match says {
        Line::Tick { moment } => {
            tick(running, moment);
            Ok(Ran::GoesOn)
        }
        Line::Command { peer, hex } => {
            command(alloc, running, peer, hex, rooms, out)?;
            Ok(Ran::GoesOn)
        }
        Line::Frame => {
            frame(alloc, running, rooms, out)?;
            Ok(Ran::GoesOn)
        }
        Line::End => {
            line_executed(alloc, running.camera.executed(), out)?;
            Ok(Ran::Ended)
        }
        _ => unreachable!(),
    }
}
