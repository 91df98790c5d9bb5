ghost use Rattle.std.specs.Prelude.{◌≡◌, [], ◌∷◌};
ghost use Rattle.acquisition_machine.specs.Machine.{stop as stopped};
ghost use Rattle.acq_core.specs.Receiver.{config_of, buffers, Stands};
ghost use Rattle.acq_core.specs.Waiting.{waiting_fills, waiting_requests};
ghost use Rattle.buffer_words.specs.Boards.{board_id};
ghost use Rattle.buffer_words.specs.Passes.{IsEmptyHanded};
ghost use Rattle.gev_acq.specs.Buffers.{Backs, HoldsAlone};
ghost use Rattle.gev_acq.specs.Claims.{ServesOn};

use crate::filling::fill_all;
use acq_core::Acq;
use board_calls::Mode;
use buffer_words::{Board, Pass};
use gev_links::{Gate, OpenGate};
use std::sync::Wait;

/// Stops the receiver: all of its open blocks retire, and are filled by the mode.
pub fn drain<R: Wait>(rt: &R, board: &Board, pass: &mut Pass, acq: &mut Acq, mode: Mode)
    requires table { pass.old.table ≡ board_id board.now }
    requires fills { waiting_fills acq.old ≡ [] }
    requires requests { waiting_requests acq.old ≡ [] }
    requires backs { Backs pass.old (buffers acq.old) }
    ensures serves { ServesOn mode (config_of acq.old) (Stands acq.old) (Stands acq.new) (stopped ∷ []) pass.old pass.new }
    ensures table { pass.new.table ≡ pass.old.table }
    ensures config { config_of acq.new ≡ config_of acq.old }
    ensures fills { waiting_fills acq.new ≡ [] }
    ensures requests { waiting_requests acq.new ≡ [] }
    ensures buffers { buffers acq.new ≡ [] }
    ensures empty { HoldsAlone pass.old (buffers acq.old) → IsEmptyHanded pass.new }
{
    retire_all(rt, board, pass, acq, &OpenGate, mode);
}

/// The same, passing a gate before each fill.
pub fn retire_all<R: Wait, G: Gate>(
    rt: &R,
    board: &Board,
    pass: &mut Pass,
    acq: &mut Acq,
    gate: &G,
    mode: Mode,
)
    requires table { pass.old.table ≡ board_id board.now }
    requires fills { waiting_fills acq.old ≡ [] }
    requires requests { waiting_requests acq.old ≡ [] }
    requires backs { Backs pass.old (buffers acq.old) }
    ensures serves { ServesOn mode (config_of acq.old) (Stands acq.old) (Stands acq.new) (stopped ∷ []) pass.old pass.new }
    ensures table { pass.new.table ≡ pass.old.table }
    ensures config { config_of acq.new ≡ config_of acq.old }
    ensures fills { waiting_fills acq.new ≡ [] }
    ensures requests { waiting_requests acq.new ≡ [] }
    ensures buffers { buffers acq.new ≡ [] }
    ensures empty { HoldsAlone pass.old (buffers acq.old) → IsEmptyHanded pass.new }
{
    acq.stop();
    fill_all(rt, board, pass, acq, gate, mode);
}
