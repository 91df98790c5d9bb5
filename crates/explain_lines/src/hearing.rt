//! Datagrams that are received, and what became of them on the tape.

ghost use Rattle.std.specs.Prelude.{◌≡◌, ◌++◌, ◌∷◌, [], IfOk, OnOk, Option};
ghost use Rattle.board_machine.specs.Machine.{Board, Item};
ghost use Rattle.acquisition_machine.specs.Machine.{datagram};
ghost use Rattle.acq_core.specs.Receiver.{config_of, buffers};
ghost use Rattle.acq_core.specs.Waiting.{waiting_fills, waiting_requests};
ghost use Rattle.note_tape.specs.Tells.{Tells};
ghost use Rattle.script_replay.specs.Boards.{IsReady};
ghost use Rattle.script_replay.specs.Acquiring.{IsAtRest, AreAway, Drives};
ghost use Rattle.explain_lines.specs.Marks.{KeepsMarks};
ghost use Rattle.explain_lines.specs.Hearing.{IsTelling, SettlesTold, TellsPart, HearsIn, way_notes, claim_notes};

use crate::retired::{id_at, tape_retired};
use acq_core::{Acq, Need};
use board_model::{Mode, PlainBoard};
use gev_types::NoMemory;
use note_tape::{Told, tape_dropped, tape_need};
use script_replay::{FillCounts, Got, give_claimed};

/// Tells a datagram, fills the buffers that come back, and puts what became of all on the tape. The answer is what
/// the datagram needs.
fn fill_what_retires(
    board: &mut PlainBoard,
    acq: &mut Acq,
    counts: &mut FillCounts,
    mode: Mode,
    bytes: &[u8],
    tape: &mut Vec<Told>,
) -> Result<Need, NoMemory>
    requires ready { IsReady board.old }
    requires telling { IsTelling acq.old }
    requires no_fill { waiting_fills acq.old ≡ [] }
    requires no_request { waiting_requests acq.old ≡ [] }
    requires away { AreAway board.old (buffers acq.old) }
    ensures { IfOk result (λ need. SettlesTold mode bytes.now board.old acq.old counts.old tape.old.items need board.new acq.new counts.new tape.new.items) }
{
    let need = acq.datagram(bytes);
    tape_need(tape, need, bytes)?;
    tape_retired(board, acq, counts, mode, tape)?;
    Ok(need)
}

/// Puts the image that a claimed place had on the tape, where it was dropped for the claim.
fn tape_way(tape: &mut Vec<Told>, board: &PlainBoard, got: Got) -> Result<(), NoMemory>
    ensures { OnOk result ((before : Board) → KeepsMarks before board.now.board → Tells tape.old.items tape.new.items (way_notes before got.place got.dropped)) }
{
    match got.dropped {
        Some(block) => tape_dropped(tape, block, id_at(board, got.place)),
        None => Ok(()),
    }
}

/// Puts on the tape what a claim for this block got.
fn tape_claim(
    tape: &mut Vec<Told>,
    board: &PlainBoard,
    block: u64,
    got: Option<Got>,
) -> Result<(), NoMemory>
    ensures { OnOk result ((before : Board) → KeepsMarks before board.now.board → Tells tape.old.items tape.new.items (claim_notes before block got)) }
{
    match got {
        Some(got) => {
            tape_way(tape, board, got)?;
            tape.push(Told::Opened(block, Some(id_at(board, got.place))))?;
            Ok(())
        }
        None => {
            tape.push(Told::Opened(block, None))?;
            Ok(())
        }
    }
}

/// Tells a datagram. Where it wants a buffer, one is claimed by the mode, and the datagram is told again.
/// What becomes of all is put on the tape.
pub(crate) fn receive(
    board: &mut PlainBoard,
    acq: &mut Acq,
    counts: &mut FillCounts,
    mode: Mode,
    bytes: &[u8],
    tape: &mut Vec<Told>,
) -> Result<(), NoMemory>
    requires rest { IsAtRest board.old acq.old }
    ensures drives { OnOk result (Drives (λ t part. HearsIn (config_of acq.old) mode bytes.now t part × TellsPart (config_of acq.old) tape.old.items tape.new.items t part) 0 board.old acq.old counts.old [] board.new acq.new counts.new) }
    ensures rest { OnOk result (IsAtRest board.new acq.new) }
    ensures config { OnOk result (config_of acq.new ≡ config_of acq.old) }
{
    acq.tell_ends();
    match fill_what_retires(board, acq, counts, mode, bytes, tape)? {
        Need::Buffer(block) => {
            let got = give_claimed(board, acq, counts, mode);
            tape_claim(tape, board, block, got)?;
            fill_what_retires(board, acq, counts, mode, bytes, tape)?;
            Ok(())
        }
        Need::Done => Ok(()),
        Need::Ignored(_why) => Ok(()),
    }
}
