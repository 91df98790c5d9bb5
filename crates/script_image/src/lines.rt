//! A line behind the first.

ghost use Rattle.std.specs.Prelude.{◌≡◌, ◌≤◌, [], length, IfOk, MatchResult};
ghost use Rattle.gev_script.specs.Lines.{view};
ghost use Rattle.script_runs.specs.Runs.{IfRefused};
ghost use Rattle.script_replay.specs.Replays.{IsReplaying, IsLaterIn, RefusedBy};
ghost use Rattle.script_image.specs.Lines.{IsNoTake, CameAs, CameBy, came_of};

use crate::came::Came;
use crate::taking::take;
use gev_script::{Line, ScriptKind, first_name, parse_line};
use gev_types::NoMemory;
use script_replay::{DatagramRooms, ROOM, Script, is_out_of_place, run_said};
use script_runs::{Ran, Stop};
use std::alloc::Global;

/// Runs what a line other than `take` says, and adds its report to the empty `out`.
fn run_other(
    alloc: Global,
    script: &mut Script,
    rooms: &mut DatagramRooms,
    says: Line<'_>,
    out: &mut Vec<u8>,
) -> Result<Came, NoMemory>
    requires keeps { IsReplaying script.old.running }
    requires run { IsLaterIn ROOM (view says) }
    requires empty { out.old.items ≡ [] }
    requires other { IsNoTake (view says) }
    ensures { IfOk result (λ came. CameAs came (view says.entry) script.old script.new) }
{
    match run_said(alloc, script, rooms, says, out)? {
        Ran::GoesOn => Ok(Came::On),
        Ran::Ended => Ok(Came::End),
    }
}

/// What a `take` line came to.
fn came_of(got: Option<u8>) -> Came
    ensures { result ≡ came_of got }
{
    match got {
        Some(place) => Came::Took(place),
        None => Came::On,
    }
}

/// Runs a line behind the first, given without its line feed. The report that is added to the empty `out` is for
/// nobody.
pub(crate) fn run_later(
    alloc: Global,
    script: &mut Script,
    rooms: &mut DatagramRooms,
    line: &[u8],
    out: &mut Vec<u8>,
) -> Result<Came, Stop>
    requires keeps { IsReplaying script.old.running }
    requires short { length line.now ≤ 20000 }
    requires empty { out.old.items ≡ [] }
    ensures { MatchResult result (λ came. CameBy came line.now script.old script.new)
        (λ stop. IfRefused stop (λ kind. RefusedBy line.now kind script.old script.new)) }
{
    if is_out_of_place(first_name(line)) {
        return Err(Stop::Refused(ScriptKind::Word));
    }
    match parse_line(line) {
        Err(kind) => Err(Stop::Refused(kind)),
        Ok(Line::Take) => Ok(came_of(take(script))),
        Ok(says) => match run_other(alloc, script, rooms, says, out) {
            Ok(came) => Ok(came),
            Err(NoMemory) => Err(Stop::NoMemory),
        },
    }
}
