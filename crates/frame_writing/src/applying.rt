//! All turns of the application.

ghost use Rattle.std.specs.Prelude.{◌≡◌, cond};
ghost use Rattle.buffer_words.specs.Boards.{board_id};
ghost use Rattle.buffer_words.specs.Passes.{SameHands};
ghost use Rattle.gev_links.specs.Told.{Drops};
ghost use Rattle.frame_writing.specs.HandsOut.{handed_out, HandsOut};

use crate::handed_out::{HandedEnd, HandedOut};
use crate::looking::look_once;
use crate::outlet::Outlet;
use crate::turn_end::TurnEnd;
use buffer_words::{Board, Pass};
use gev_links::{Clock, Gate, Sink, Source};
use idle_rests::Rest;
use std::alloc::Global;
use std::sync::Wait;

/// One for a buffer that is complete.
fn one_if(complete: bool) -> u32
    ensures { result ≡ cond complete 1 0 }
{
    if complete { 1 } else { 0 }
}

/// What the application did.
fn ended(taken: u32, complete: u32, end: HandedEnd) -> HandedOut
    ensures { result ≡ handed_out taken complete end }
{
    HandedOut {
        taken,
        complete,
        end,
    }
}

/// The application of a run over a camera's frames: takes buffers until it has taken `outlet.frames`, until none is left
/// after the run word wasn't 1, or until the input that it watches has ended, and answers how many it took. Of each it
/// writes what is wanted before it gives the buffer back and queues it; a write that fails ends it behind that.
///
/// A turn looks at the run word and then waits no time for a buffer, so the clock is read once in a turn that finds one
/// and twice in another. It passes point 2 of the gate after each buffer that it took, and where turns found none it
/// rests at the gate, so that a gate that each fill rings wakes it at once.
pub fn hand_out_frames<R: Wait, C: Clock + Drop, G: Gate, K: Sink, I: Source, T: Clock + Drop>(
    rt: &R,
    alloc: Global,
    board: &Board,
    pass: &mut Pass,
    gate: &G,
    outlet: &mut Outlet<C, T>,
    sink: &mut K,
    input: &mut I,
) -> HandedOut
    requires table { pass.old.table ≡ board_id board.now }
    ensures hands_out { HandsOut outlet.old.frames outlet.old.output (C.told outlet.old.clock) (C.told outlet.new.clock) result pass.old pass.new (K.written sink.old) (K.written sink.new) (K.faults sink.old) (K.faults sink.new) outlet.old.watch.on (I.left input.new) }
    ensures dropped { Drops (I.left input.old) (I.left input.new) }
    ensures input_faults { I.faults input.new ≡ I.faults input.old }
    ensures hands { SameHands pass.old pass.new }
    ensures frames { outlet.new.frames ≡ outlet.old.frames }
    ensures output { outlet.new.output ≡ outlet.old.output }
{
    let mut taken = 0;
    let mut complete = 0;
    let mut rest = Rest::woken();
    'turns: for _ in rt.forever() {
        if taken == outlet.frames {
            return ended(taken, complete, HandedEnd::Enough);
        }
        if outlet.watch.has_ended(input) {
            return ended(taken, complete, HandedEnd::InputEnded);
        }
        tell_progress(alloc, outlet, sink);
        let rings = gate.rings();
        match look_once(rt, alloc, board, pass, gate, outlet, sink) {
            TurnEnd::Handed(whole) => {
                taken += 1;
                complete += one_if(whole);
                rest.found();
            }
            TurnEnd::Idle => rest_at(rt, gate, &mut rest, rings),
            TurnEnd::Over => {
                return ended(taken, complete, HandedEnd::Over);
            }
            TurnEnd::WriteFault(whole) => {
                return ended(taken + 1, complete + one_if(whole), HandedEnd::WriteFault);
            }
            TurnEnd::NoMemory(whole) => {
                return ended(taken + 1, complete + one_if(whole), HandedEnd::NoMemory);
            }
        }
    }
    unreachable!()
}

/// Tells how the run goes where it's time to, by the clock of the looks at the input.
fn tell_progress<C: Drop, K: Sink, T: Clock + Drop>(
    alloc: Global,
    outlet: &mut Outlet<C, T>,
    sink: &mut K,
)
    ensures written { K.written sink.new ≡ K.written sink.old }
    ensures faults { K.faults sink.new ≡ K.faults sink.old }
    ensures clock { outlet.new.clock ≡ outlet.old.clock }
    ensures frames { outlet.new.frames ≡ outlet.old.frames }
    ensures output { outlet.new.output ≡ outlet.old.output }
    ensures watched { outlet.new.watch.on ≡ outlet.old.watch.on }
{
    if outlet.progress.is_on() {
        let now = outlet.watch.clock.now();
        outlet.progress.tell(alloc, now, sink);
    }
}

/// Rests at the gate where it's time to, until it's rung for another time than these.
fn rest_at<R: Wait, G: Gate>(rt: &R, gate: &G, rest: &mut Rest, rings: u64) {
    let micros = rest.micros();
    if micros > 0 {
        gate.rest(rt, rings, micros);
    }
}
