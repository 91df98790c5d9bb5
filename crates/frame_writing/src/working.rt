//! The application's worker of a run over a camera's frames, which owns what it works with and gives it back.

ghost use Rattle.std.specs.Prelude.{◌≡◌};
ghost use Rattle.buffer_words.specs.Boards.{board_id};
ghost use Rattle.buffer_words.specs.Passes.{IsEmptyHanded};
ghost use Rattle.buffer_words.specs.Workers.{Works};
ghost use Rattle.gev_links.specs.Told.{Drops};
ghost use Rattle.live_crew.specs.Crews.{ComesBack};
ghost use Rattle.gev_apply.specs.Kinds.{is_applications};
ghost use Rattle.frame_writing.specs.Work.{has_enough, HandsOutAndStops};

use crate::applying::hand_out_frames;
use crate::handed_out::{HandedEnd, HandedOut};
use crate::outlet::Outlet;
use buffer_words::{Board, Pass};
use gev_links::{Clock, Gate, Sink, Source};
use live_crew::{Worked, stop_if};
use std::alloc::Global;
use std::sync::Wait;

/// What the application's worker gives back beside its pass.
pub struct FramesDone<C: Drop, T: Drop> {
    /// What was wanted, with its clocks.
    pub outlet: Outlet<C, T>,
    /// How it ended.
    pub handed: HandedOut,
}

// Whether the application needs no more of the run.
fn is_enough(end: HandedEnd) -> bool
    ensures { result ≡ has_enough end }
{
    match end {
        HandedEnd::Enough => true,
        HandedEnd::Over => false,
        HandedEnd::InputEnded => true,
        HandedEnd::WriteFault => true,
        HandedEnd::NoMemory => true,
    }
}

/// The application's worker: hands out buffers until it has enough or the run is over. It stops the run in each case but
/// that it was over.
pub fn work_frames<R: Wait, C: Clock + Drop, G: Gate, K: Sink, I: Source, T: Clock + Drop>(
    rt: &R,
    alloc: Global,
    board: &Board,
    mut pass: Pass,
    gate: &G,
    mut outlet: Outlet<C, T>,
    sink: &mut K,
    input: &mut I,
) -> Worked<FramesDone<C, T>>
    requires table { pass.table ≡ board_id board.now }
    requires hands { IsEmptyHanded pass }
    ensures hands_out { HandsOutAndStops outlet.frames outlet.output (C.told outlet.clock) (C.told result.done.outlet.clock) result.done.handed pass result.pass (K.written sink.old) (K.written sink.new) (K.faults sink.old) (K.faults sink.new) outlet.watch.on (I.left input.new) }
    ensures dropped { Drops (I.left input.old) (I.left input.new) }
    ensures input_faults { I.faults input.new ≡ I.faults input.old }
    ensures works { Works is_applications pass result.pass }
    ensures back { ComesBack pass result.pass }
{
    let handed = hand_out_frames(rt, alloc, board, &mut pass, gate, &mut outlet, sink, input);
    let over = is_enough(handed.end);
    stop_if(board, &mut pass, over);
    Worked {
        pass,
        done: FramesDone { outlet, handed },
    }
}
