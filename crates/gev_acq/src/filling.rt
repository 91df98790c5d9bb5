ghost use Rattle.std.specs.Prelude.{◌≡◌, ◌++◌, [], ◌∷◌, length, map};
ghost use Rattle.acquisition_machine.specs.TurnLaws.{given_of};
ghost use Rattle.acq_core.specs.Receiver.{buffers, KeepsBlocks};
ghost use Rattle.acq_core.specs.Waiting.{waiting_fills, waiting_requests};
ghost use Rattle.buffer_words.specs.Boards.{board_id};
ghost use Rattle.buffer_words.specs.Passes.{gone, IsLifted, size_at, Has};
ghost use Rattle.buffer_words.specs.Several.{EntersOf};
ghost use Rattle.gev_acq.specs.Buffers.{Backs, HoldsAlone};
ghost use Rattle.gev_acq.specs.Filling.{FillsRetiredFor};

use acq_core::Acq;
use acquisition_machine::Retired;
use board_calls::{FillEnd, Mode};
use buffer_words::{Board, Pass};
use gev_links::Gate;
use shared_modes::fill_for;
use std::sync::Wait;

/// Gives the buffer of a retired block to the output, by the mode. Where the output is closed the buffer is laid down.
pub(crate) fn fill_one<R: Wait, G: Gate>(
    rt: &R,
    board: &Board,
    pass: &mut Pass,
    gate: &G,
    retired: Retired,
    mode: Mode,
)
    requires table { pass.old.table ≡ board_id board.now }
    requires holds { IsLifted pass.old retired.place }
    requires size { length retired.buf.bytes ≡ size_at pass.old retired.place }
    ensures enters { EntersOf pass.old (FillsRetiredFor mode (retired ∷ [])) pass.new }
    ensures hands { Has retired.place gone pass.old pass.new }
{
    gate.pass(1);
    let Retired { place, buf } = retired;
    let (end, _dropped) = fill_for(rt, board, pass, mode, place, buf);
    match end {
        FillEnd::Filled => gate.pass(3),
        FillEnd::Closed(back) => {
            board.set_down(pass, place, back);
            board.lay(pass, place);
        }
    }
}

/// Gives the buffers of all blocks that retired to the output, first in first, each by the mode.
pub fn fill_all<R: Wait, G: Gate>(
    rt: &R,
    board: &Board,
    pass: &mut Pass,
    acq: &mut Acq,
    gate: &G,
    mode: Mode,
)
    requires table { pass.old.table ≡ board_id board.now }
    requires backs { Backs pass.old (map given_of (waiting_fills acq.old) ++ buffers acq.old) }
    ensures table { pass.new.table ≡ pass.old.table }
    ensures enters { EntersOf pass.old (FillsRetiredFor mode (waiting_fills acq.old)) pass.new }
    ensures fills { waiting_fills acq.new ≡ [] }
    ensures requests { waiting_requests acq.new ≡ waiting_requests acq.old }
    ensures rest { KeepsBlocks acq.old acq.new }
    ensures backs { Backs pass.new (buffers acq.new) }
    ensures alone { HoldsAlone pass.old (map given_of (waiting_fills acq.old) ++ buffers acq.old) → HoldsAlone pass.new (buffers acq.new) }
{
    'fills: while let Some(retired) = acq.next_fill() {
        fill_one(rt, board, pass, gate, retired, mode);
    }
}
