//! One turn of the application.

ghost use Rattle.std.specs.Prelude.{◌≡◌};
ghost use Rattle.buffer_words.specs.Boards.{board_id};
ghost use Rattle.buffer_words.specs.Passes.{SameHands};
ghost use Rattle.gev_apply.specs.Applied.{LooksTo};

use crate::handing::hand_out;
use crate::look_end::LookEnd;
use buffer_words::{Board, Pass};
use gentl_events::event_get;
use gev_links::{Clock, Gate};
use gev_types::NoMemory;
use std::alloc::Global;
use std::sync::Wait;

/// One turn: looks at the run word, waits no time for a buffer, and hands out the one that came.
pub(crate) fn look_once<R: Wait, C: Clock, G: Gate>(
    rt: &R,
    alloc: Global,
    board: &Board,
    pass: &mut Pass,
    clock: &mut C,
    gate: &G,
    out: &mut Vec<u8>,
) -> Result<LookEnd, NoMemory>
    requires table { pass.old.table ≡ board_id board.now }
    ensures looks { LooksTo (C.told clock.old) (C.told clock.new) out.old.items out.new.items result pass.old pass.new }
    ensures hands { SameHands pass.old pass.new }
{
    let run = board.look_run(pass);
    let answer = event_get(rt, board, pass, clock, gate, 0);
    pass.witness();
    match answer {
        Ok(loan) => match hand_out(alloc, board, pass, loan, out) {
            Ok(()) => Ok(LookEnd::Handed),
            Err(error) => Err(error),
        },
        Err(_) => {
            if run == 1 {
                Ok(LookEnd::Idle)
            } else {
                Ok(LookEnd::Over)
            }
        }
    }
}
