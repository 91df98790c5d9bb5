//! One turn of the application.

ghost use Rattle.std.specs.Prelude.{◌≡◌};
ghost use Rattle.buffer_words.specs.Boards.{board_id};
ghost use Rattle.buffer_words.specs.Passes.{SameHands};
ghost use Rattle.frame_writing.specs.Turns.{end_by, TurnsTo};

use crate::handing::hand_out;
use crate::outlet::Outlet;
use crate::turn_end::TurnEnd;
use crate::write_stop::WriteStop;
use buffer_words::{Board, Pass};
use gentl_events::event_get;
use gev_links::{Clock, Gate, Sink};
use std::alloc::Global;
use std::sync::Wait;

/// How a turn with a buffer that is complete or not ends, by how its text was written.
fn end_by(complete: bool, wrote: Result<(), WriteStop>) -> TurnEnd
    ensures { result ≡ end_by complete wrote }
{
    match wrote {
        Ok(()) => TurnEnd::Handed(complete),
        Err(WriteStop::WriteFault) => TurnEnd::WriteFault(complete),
        Err(WriteStop::NoMemory) => TurnEnd::NoMemory(complete),
    }
}

/// One turn: looks at the run word, waits no time for a buffer, and hands out the one that came.
pub(crate) fn look_once<R: Wait, C: Clock + Drop, G: Gate, K: Sink, T: Clock + Drop>(
    rt: &R,
    alloc: Global,
    board: &Board,
    pass: &mut Pass,
    gate: &G,
    outlet: &mut Outlet<C, T>,
    sink: &mut K,
) -> TurnEnd
    requires table { pass.old.table ≡ board_id board.now }
    ensures turn { TurnsTo result outlet.old.output (C.told outlet.old.clock) (C.told outlet.new.clock) (K.written sink.old) (K.written sink.new) (K.faults sink.old) (K.faults sink.new) pass.old pass.new }
    ensures hands { SameHands pass.old pass.new }
    ensures frames { outlet.new.frames ≡ outlet.old.frames }
    ensures output { outlet.new.output ≡ outlet.old.output }
    ensures watched { outlet.new.watch.on ≡ outlet.old.watch.on }
{
    let run = board.look_run(pass);
    let answer = event_get(rt, board, pass, &mut outlet.clock, gate, 0);
    pass.witness();
    match answer {
        Ok(loan) => {
            let rec = loan.buf().rec();
            let complete = rec.complete;
            let len = rec.data_len;
            let wrote = hand_out(alloc, board, pass, loan, outlet.output, sink);
            outlet.progress.count(complete, len);
            end_by(complete, wrote)
        }
        Err(_) => {
            if run == 1 {
                TurnEnd::Idle
            } else {
                TurnEnd::Over
            }
        }
    }
}
