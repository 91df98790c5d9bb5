ghost use Rattle.std.specs.Prelude.{◌≡◌, [], IsSome};
ghost use Rattle.acq_core.specs.Receiver.{config_of, asked_block, buffers, Stands};
ghost use Rattle.acq_core.specs.Waiting.{waiting_fills, waiting_requests};
ghost use Rattle.buffer_words.specs.Boards.{board_id};
ghost use Rattle.gev_acq.specs.Buffers.{Backs, HoldsAlone};
ghost use Rattle.gev_acq.specs.Claiming.{ClaimsOne};

use acq_core::Acq;
use board_calls::Mode;
use buffer_words::{Board, Pass};
use shared_modes::claim_for;
use std::sync::Wait;

/// Claims a buffer for the block for which the receiver asks, by the mode, and gives it: its place, or None
/// where there was none.
pub(crate) fn claim_one<R: Wait>(
    rt: &R,
    board: &Board,
    pass: &mut Pass,
    acq: &mut Acq,
    mode: Mode,
) -> Option<u8>
    requires table { pass.old.table ≡ board_id board.now }
    requires asked { IsSome (asked_block acq.old) }
    requires backs { Backs pass.old (buffers acq.old) }
    ensures claims { ClaimsOne mode (config_of acq.old) (Stands acq.old) (Stands acq.new) result pass.old pass.new }
    ensures config { config_of acq.new ≡ config_of acq.old }
    ensures fills { waiting_fills acq.new ≡ waiting_fills acq.old }
    ensures requests { waiting_requests acq.new ≡ waiting_requests acq.old }
    ensures asked { asked_block acq.new ≡ None }
    ensures backs { Backs pass.new (buffers acq.new) }
    ensures alone { HoldsAlone pass.old (buffers acq.old) → HoldsAlone pass.new (buffers acq.new) }
{
    match claim_for(rt, board, pass, mode) {
        Some((place, _dropped)) => {
            let buf = board.lift(pass, place);
            acq.give(Some((place, buf)));
            Some(place)
        }
        None => {
            acq.give(None);
            None
        }
    }
}
