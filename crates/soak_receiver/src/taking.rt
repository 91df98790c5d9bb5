//! What the application does: it takes a buffer, tells it, returns it and queues it.

ghost use Rattle.std.specs.Prelude.{◌≡◌, ◌<◌, ◌∷◌, [], MatchOption, IfOk, OnErr};
ghost use Rattle.gev_types.specs.Limits.{place_count};
ghost use Rattle.gev_script.specs.Lines as script_line;
ghost use Rattle.board_machine.specs.Machine.{InHand, word_at, IsHeldAs};
ghost use Rattle.soak_receiver.specs.Moves.{IsHosting, Moves};
ghost use Rattle.soak_receiver.specs.Taking.{TookFirst, TookNothing, TakesFirst, on_board, queued};

use board_model::PlainBoard;
use gentl_types::BufferId;
use gev_report::line_take;
use gev_types::NoMemory;
use script_replay::{CALLER, Running};
use std::alloc::Global;

/// The generation of a buffer in hand.
fn generation_at(board: &PlainBoard, place: u8) -> u32
    requires in_hand { InHand board.now.board 0 place }
    ensures { result ≡ (word_at board.now.board place).generation }
{
    board.owned();
    board.word(place).generation
}

/// Takes the output's first buffer and returns it. The answer is its id; None where there was nothing to
/// take.
fn take_buffer(running: &mut Running) -> Option<BufferId>
    requires { IsHosting running.old }
    ensures took { MatchOption result (TookNothing running.old running.new) (λ id. TookFirst id running.old running.new) }
    ensures hosting { IsHosting running.new }
{
    running.board.owned();
    match running.board.event_get(CALLER, 0) {
        Ok(place) => {
            let generation = generation_at(&running.board, place);
            running.board.ds_return(CALLER, place);
            running.taken = running.taken.saturating_add(1);
            Some(BufferId { place, generation })
        }
        Err(_error) => None,
    }
}

/// Puts a held buffer back into the pool.
fn queue_buffer(running: &mut Running, id: BufferId)
    requires hosting { IsHosting running.old }
    requires within { id.place < place_count }
    requires held { IsHeldAs (word_at running.old.board.board id.place) id.generation }
    ensures moves { Moves (script_line.queue id.place id.generation ∷ []) (on_board (queued id)) running.old running.new }
    ensures hosting { IsHosting running.new }
{
    let _queued = running.board.ds_queue(CALLER, id);
}

/// Takes the output's first buffer, adds its line, returns it and queues it. The answer is whether its
/// record is complete; None where there was nothing to take.
pub(crate) fn take_and_queue(
    alloc: Global,
    running: &mut Running,
    out: &mut Vec<u8>,
) -> Result<Option<bool>, NoMemory>
    requires { IsHosting running.old }
    ensures takes { IfOk result (λ took. TakesFirst took running.old out.old.items out.new.items running.new) }
    ensures untold { OnErr result (out.new.items ≡ out.old.items) }
    ensures hosting { IsHosting running.new }
{
    let Some(id) = take_buffer(running) else {
        return Ok(None);
    };
    let buf = running.board.buf(id.place);
    let complete = buf.rec().complete;
    let told = line_take(alloc, id, buf, out);
    queue_buffer(running, id);
    told?;
    Ok(Some(complete))
}
