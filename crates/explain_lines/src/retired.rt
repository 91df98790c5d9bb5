//! What retires is filled, and put on the tape.

ghost use Rattle.std.specs.Prelude.{◌≡◌, ◌++◌, ◌∷◌, [], List, map, OnOk};
ghost use Rattle.board_machine.specs.Machine.{Board, Item, IsActor};
ghost use Rattle.board_machine.specs.Ids.{buffer_at};
ghost use Rattle.board_model.specs.Gone.{gone_of};
ghost use Rattle.acquisition_machine.specs.TurnLaws.{given_of};
ghost use Rattle.acq_core.specs.Receiver.{is_telling, buffers, KeepsBlocks};
ghost use Rattle.acq_core.specs.Waiting.{waiting_fills, waiting_requests, waiting_resends};
ghost use Rattle.script_trace.specs.Notes.{drops};
ghost use Rattle.script_trace.specs.Inputs.{drop_notes};
ghost use Rattle.note_tape.specs.Tells.{Tells};
ghost use Rattle.script_trace.specs.Trace.{acquirer};
ghost use Rattle.script_replay.specs.Acquiring.{IsAway, AreAway};
ghost use Rattle.explain_lines.specs.Marks.{KeepsMarks};
ghost use Rattle.explain_lines.specs.Retiring.{GivesSome, TellsFill, TellsAll};

use acq_core::{Acq, Ended, Retired};
use arrayvec::ArrayVec;
use board_model::{Gone, Mode, PlainBoard};
use gentl_types::BufferId;
use gev_types::{NoMemory, PLACES};
use note_tape::{Told, tape_done, tape_dropped, tape_gap};
use script_replay::{FillCounts, fill_one};

/// The id of the buffer that a place has.
pub(crate) fn id_at(board: &PlainBoard, place: u8) -> BufferId
    ensures { (before : Board) → KeepsMarks before board.now.board → result ≡ buffer_at before place }
{
    board.owned();
    let generation = if place < PLACES {
        board.word(place).generation
    } else {
        0
    };
    BufferId { place, generation }
}

/// Puts an image that gave way to another on the tape.
fn tape_one(tape: &mut Vec<Told>, board: &PlainBoard, one: &Gone) -> Result<(), NoMemory>
    ensures { OnOk result ((before : Board) → KeepsMarks before board.now.board → Tells tape.old.items tape.new.items (drops one.now.block (buffer_at before one.now.place) ∷ [])) }
{
    tape_dropped(tape, one.block, id_at(board, one.place))
}

/// Puts on the tape which images gave way to another.
fn tape_gone(tape: &mut Vec<Told>, board: &PlainBoard, gone: &[Gone]) -> Result<(), NoMemory>
    ensures { OnOk result ((before : Board) → KeepsMarks before board.now.board → (xs : List Item) → gone.now ≡ map gone_of xs
        → Tells tape.old.items tape.new.items (drop_notes before xs)) }
{
    for one in gone {
        tape_one(tape, board, one)?;
    }
    Ok(())
}

/// Fills a block's buffer, and puts the block on the tape.
fn tape_filled(
    board: &mut PlainBoard,
    counts: &mut FillCounts,
    mode: Mode,
    end: Ended,
    fill: Retired,
    tape: &mut Vec<Told>,
) -> Result<(), NoMemory>
    requires actor { IsActor board.old.board acquirer }
    requires away { IsAway board.old (given_of fill) }
    ensures { OnOk result (TellsFill mode end fill board.old counts.old tape.old.items board.new counts.new tape.new.items) }
{
    let buffer = Some(id_at(board, fill.place));
    let mut gone = ArrayVec::new();
    let filled = fill_one(board, counts, mode, fill, &mut gone);
    tape_gone(tape, board, gone.as_slice())?;
    tape_done(tape, end, buffer, filled)
}

/// Fills each buffer that waits in the receiver, first in first, and puts each block that retired on the tape.
pub(crate) fn tape_retired(
    board: &mut PlainBoard,
    acq: &mut Acq,
    counts: &mut FillCounts,
    mode: Mode,
    tape: &mut Vec<Told>,
) -> Result<(), NoMemory>
    requires actor { IsActor board.old.board acquirer }
    requires gives { GivesSome acq.old }
    requires away { AreAway board.old (map given_of (waiting_fills acq.old) ++ buffers acq.old) }
    ensures told { OnOk result (TellsAll mode acq.old board.old counts.old tape.old.items board.new counts.new tape.new.items) }
    ensures no_fill { OnOk result (waiting_fills acq.new ≡ []) }
    ensures requests { OnOk result (waiting_requests acq.new ≡ waiting_requests acq.old) }
    ensures resends { OnOk result (waiting_resends acq.new ≡ waiting_resends acq.old) }
    ensures telling { OnOk result (is_telling acq.new ≡ is_telling acq.old) }
    ensures rest { OnOk result (KeepsBlocks acq.old acq.new) }
    ensures away { OnOk result (AreAway board.new (buffers acq.new)) }
{
    while let Some(end) = acq.next_ended() {
        tape_gap(tape, end.floor, end.block)?;
        if end.held.is_none() {
            tape_done(tape, end, None, false)?;
        } else {
            match acq.next_fill() {
                Some(fill) => tape_filled(board, counts, mode, end, fill, tape)?,
                None => {}
            }
        }
    }
    Ok(())
}
