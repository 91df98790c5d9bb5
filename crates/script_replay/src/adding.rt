//! A line behind the header, which adds to the trace.

ghost use Rattle.std.specs.Prelude.{◌≡◌, [], length, OnOk};
ghost use Rattle.gev_script.specs.Lines as script_line;
ghost use Rattle.gev_script.specs.Lines.{view};
ghost use Rattle.acquisition_machine.specs.declared.config.AcqConfig.{AcqConfig};
ghost use Rattle.script_trace.specs.Adding.{Spells};
ghost use Rattle.script_trace.specs.Modes.{mode_of};
ghost use Rattle.script_replay.specs.Boards.{IsReady};
ghost use Rattle.script_replay.specs.Acquiring.{CallsBoard};
ghost use Rattle.script_replay.specs.Replays.{IsReplaying, IsCall, IsRunIn, Fits, StepsInRange, Goes};

use crate::acquisition_lines::{datagram, start, stop, tick};
use crate::answers::{line_done, line_refused};
use crate::board_lines::{announce, event_flush, flush, info, kill, queue, revoke};
use crate::buffer_lines::{buffer_info, take};
use crate::closing_lines::close_all;
use crate::datagram_rooms::{DatagramRooms, ROOM};
use crate::handle_lines::open_child;
use crate::running::Running;
use crate::step_line::step;
use board_calls::shown_run;
use board_model::{Mode, PlainBoard};
use gentl_types::{BufferId, GcError};
use gev_script::{Act, Line};
use gev_types::NoMemory;
use std::alloc::Global;

/// Runs a line that calls the stream or its event, and nothing else.
fn run_call(
    alloc: Global,
    board: &mut PlainBoard,
    line: Line<'_>,
    out: &mut Vec<u8>,
) -> Result<(), NoMemory>
    requires ready { IsReady board.old }
    requires call { IsCall (view line) }
    requires empty { out.old.items ≡ [] }
    ensures { (c : AcqConfig) → CallsBoard (λ t. Spells c t (view line.entry)) result board.old out.new.items board.new }
{
    match line {
        Line::Announce { size } => announce(alloc, board, size, out),
        Line::Queue { place, generation } => {
            queue(alloc, board, BufferId { place, generation }, out)
        }
        Line::Revoke { place, generation } => {
            revoke(alloc, board, BufferId { place, generation }, out)
        }
        Line::Flush { operation } => flush(alloc, board, operation, out),
        Line::Kill => kill(alloc, board, out),
        Line::EventFlush => event_flush(alloc, board, out),
        Line::Info { which } => info(alloc, board, which, out),
        Line::BufferInfo {
            place,
            generation,
            which,
        } => buffer_info(alloc, board, BufferId { place, generation }, which, out),
        _ => unreachable!(),
    }
}

/// Runs a `d` line. Its bytes are decoded into the room.
pub(crate) fn run_datagram(running: &mut Running, digits: &[u8], room: &mut [u8])
    requires keeps { IsReplaying running.old }
    requires fits { Fits (length room.old) digits.now }
    ensures { Goes (script_line.datagram digits.now) running.old [] running.new }
{
    let idle = datagram(
        &mut running.board,
        &mut running.acq,
        &mut running.counts,
        running.mode,
        digits,
        room,
    );
    running.idle = running.idle.saturating_add(idle);
}

/// Runs a `take` line.
fn run_take(alloc: Global, running: &mut Running, out: &mut Vec<u8>) -> Result<(), NoMemory>
    requires keeps { IsReplaying running.old }
    requires empty { out.old.items ≡ [] }
    ensures goes { OnOk result (Goes script_line.take running.old out.new.items running.new) }
{
    let taken = take(
        alloc,
        &mut running.board,
        &running.tree,
        running.stream,
        out,
    )?;
    running.taken = running.taken.saturating_add(taken);
    Ok(())
}

/// Runs a `step` line.
fn run_step(
    alloc: Global,
    running: &mut Running,
    actor: u8,
    act: Act,
    place: Option<u8>,
    out: &mut Vec<u8>,
) -> Result<(), NoMemory>
    requires keeps { IsReplaying running.old }
    requires range { StepsInRange actor place }
    requires empty { out.old.items ≡ [] }
    ensures goes { OnOk result (Goes (script_line.step actor act place) running.old out.new.items running.new) }
{
    let taken = step(alloc, &mut running.board, actor, act, place, out)?;
    running.taken = running.taken.saturating_add(taken);
    Ok(())
}

/// The mode with this number, 0 to 2.
fn mode_of(number: u8) -> Mode
    ensures { result ≡ mode_of number }
{
    if number == 0 {
        return Mode::OldestFirst;
    }
    if number == 1 {
        return Mode::OldestFirstOverwrite;
    }
    Mode::NewestOnly
}

/// Runs a `mode` line: the mode is set where the stream isn't running.
fn run_mode(
    alloc: Global,
    running: &mut Running,
    number: u8,
    out: &mut Vec<u8>,
) -> Result<(), NoMemory>
    requires keeps { IsReplaying running.old }
    requires empty { out.old.items ≡ [] }
    ensures goes { OnOk result (Goes (script_line.mode number) running.old out.new.items running.new) }
{
    let run = running.board.run();
    if run == 1 {
        return line_refused(alloc, "mode", GcError::ResourceInUse(shown_run(run)), out);
    }
    running.mode = mode_of(number);
    running.told_mode = true;
    line_done(alloc, "mode", out)
}

/// Runs a line that adds to the trace, and adds its report to the empty `out`. The bytes of a datagram are
/// decoded into the room.
pub(crate) fn run_adding(
    alloc: Global,
    running: &mut Running,
    rooms: &mut DatagramRooms,
    line: Line<'_>,
    out: &mut Vec<u8>,
) -> Result<(), NoMemory>
    requires keeps { IsReplaying running.old }
    requires run { IsRunIn ROOM (view line) }
    requires empty { out.old.items ≡ [] }
    ensures { OnOk result (Goes (view line.entry) running.old out.new.items running.new) }
{
    match line {
        Line::Start => start(alloc, &mut running.board, &mut running.acq, out),
        Line::Stop { flags } => stop(
            alloc,
            &mut running.board,
            &mut running.acq,
            &mut running.counts,
            running.mode,
            flags,
            out,
        ),
        Line::Tick { moment } => tick(
            alloc,
            &mut running.board,
            &mut running.acq,
            &mut running.counts,
            running.mode,
            moment,
            out,
        ),
        Line::Datagram { hex } => {
            run_datagram(running, hex, rooms.room.as_mut_slice());
            Ok(())
        }
        Line::Take => run_take(alloc, running, out),
        Line::OpenChild { parent, index } => {
            open_child(alloc, &mut running.tree, parent, index, out)
        }
        Line::CloseAll { serial } => {
            close_all(alloc, &mut running.tree, &mut running.board, serial, out)
        }
        Line::Step { actor, act, place } => run_step(alloc, running, actor, act, place, out),
        Line::Mode { mode } => run_mode(alloc, running, mode, out),
        call => run_call(alloc, &mut running.board, call, out),
    }
}
