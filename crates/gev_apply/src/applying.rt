//! All turns of the application.

ghost use Rattle.std.specs.Prelude.{◌≡◌};
ghost use Rattle.buffer_words.specs.Boards.{board_id};
ghost use Rattle.buffer_words.specs.Passes.{SameHands};
ghost use Rattle.gev_apply.specs.Applied.{Applies};

use crate::look_end::LookEnd;
use crate::looking::look_once;
use buffer_words::{Board, Pass};
use gev_links::{Clock, Gate};
use gev_types::NoMemory;
use idle_rests::Rest;
use std::alloc::Global;
use std::sync::Wait;

/// The application of a live run: takes buffers until it has taken `frames`, or until none is left after the
/// run word wasn't 1, and answers how many it took. Of each it adds the line to `out`, gives the buffer back
/// and queues it. `NoMemory` where a line wanted memory; its buffer was given back and queued all the same.
///
/// A turn looks at the run word and then waits no time for a buffer, so the clock is read once in a turn that
/// finds one and twice in another. It passes point 2 of the gate after each buffer that it took, and where turns
/// found none it rests at the gate, so that a gate that each fill rings wakes it at once.
pub fn apply<R: Wait, C: Clock, G: Gate>(
    rt: &R,
    alloc: Global,
    board: &Board,
    pass: &mut Pass,
    clock: &mut C,
    gate: &G,
    frames: u32,
    out: &mut Vec<u8>,
) -> Result<u32, NoMemory>
    requires table { pass.old.table ≡ board_id board.now }
    ensures applies { Applies frames (C.told clock.old) (C.told clock.new) out.old.items out.new.items result pass.old pass.new }
    ensures hands { SameHands pass.old pass.new }
{
    let mut taken = 0;
    let mut rest = Rest::woken();
    'turns: for _ in rt.forever() {
        if taken == frames {
            return Ok(taken);
        }
        let rings = gate.rings();
        match look_once(rt, alloc, board, pass, clock, gate, out) {
            Ok(end) => match end {
                LookEnd::Handed => {
                    taken += 1;
                    rest.found();
                }
                LookEnd::Idle => rest_at(rt, gate, &mut rest, rings),
                LookEnd::Over => return Ok(taken),
            },
            Err(error) => return Err(error),
        }
    }
    unreachable!()
}

/// Rests at the gate where it's time to, until it's rung for another time than these.
fn rest_at<R: Wait, G: Gate>(rt: &R, gate: &G, rest: &mut Rest, rings: u64) {
    let micros = rest.micros();
    if micros > 0 {
        gate.rest(rt, rings, micros);
    }
}
